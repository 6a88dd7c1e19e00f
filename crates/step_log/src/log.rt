//! What a log has of each step. No value of these types is made.

/// What a step does to its word.
pub enum StepKind {
    Load,
    Store,
    AddOne,
    Max,
    Split,
    Join,
}

/// A step that was taken. A store, a split and a join find nothing; a load, an add, a split and a
/// join bring nothing, written 0.
pub struct Step {
    pub kind: StepKind,
    pub index: u64,
    pub brought: u64,
    pub found: Option<u64>,
}

/// What a seat knows: the rule's own view, with the log beside it. A clause reads an array as a
/// list, of any length.
pub struct Logged<V> {
    pub view: V,
    pub log: [Step; 0],
}
