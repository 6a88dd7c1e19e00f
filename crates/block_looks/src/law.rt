ghost use Rattle.block_looks.specs.Laws.{LooksAreKept};

/// The law of a look's steps: each keeps what its seat remembers, and shows what is said of its
/// answer. It does nothing when it runs.
pub fn look_law()
    ensures { LooksAreKept }
{}
