ghost use Rattle.std.specs.Prelude.{◌≡◌, ℕ, ◌<◌, ◌≤◌, true, false, Option, Some, [], List, ◌⊎◌, length, IfSome};
ghost use Rattle.flow_io.specs.Flow.{Rose, Files, Beside, HoldsNone, BeginsFile, ReadGives, WriteGives, BeginsDocument};
ghost use Rattle.flow_io.specs.Clock.{Ticks, Reads, last_reading};

/// What a read gave.
#[derive(Clone, Copy, Debug, PartialEq, Eq)]
pub enum Got {
    Got(usize),
    End,
    Failed,
}

/// What a write took.
#[derive(Clone, Copy, Debug, PartialEq, Eq)]
pub enum Took {
    Took(usize),
    Failed,
}

/// Files to read, one after another.
pub trait Source {
    /// How often the system has failed.
    ghost faults: { Self → ℕ };

    /// The files, where the source tells them.
    ghost files: { Self → Option Files };

    /// What is left to read, where the source tells it.
    ghost left: { Self → Option (List ℕ) };

    /// Turns to a file.
    fn start(&mut self, name: &str) -> bool
        ensures later { faults self.old ≤ faults self.new }
        ensures files { files self.new ≡ files self.old }
        ensures quiet { result ≡ true → faults self.new ≡ faults self.old }
        ensures found { result ≡ true → BeginsFile (files self.old) name.now (left self.new) }
        ensures cause { result ≡ false
            → Rose (faults self.old) (faults self.new) ⊎ HoldsNone (files self.old) name.now }
        ensures nothing { result ≡ false → left self.new ≡ Some [] };

    /// Reads the next bytes into the front of the buffer.
    fn read(&mut self, buf: &mut [u8]) -> Got
        requires { 0 < length buf.old }
        ensures later { faults self.old ≤ faults self.new }
        ensures files { files self.new ≡ files self.old }
        ensures gives { ReadGives (left self.old) (left self.new)
            (faults self.old) (faults self.new) buf.new result };
}

/// Where bytes go.
pub trait Sink {
    /// How often the system has failed.
    ghost faults: { Self → ℕ };

    /// The bytes taken, where the sink tells them.
    ghost told: { Self → Option (List ℕ) };

    /// Whether it may be written to. No call takes that away.
    ghost ready: { Self → Type 0 };

    /// What a write leaves as it is.
    ghost beside: { Self → Beside };

    /// Takes some of the bytes.
    fn write(&mut self, bytes: &[u8]) -> Took
        requires some { 0 < length bytes.now }
        requires ready { ready self.old }
        ensures later { faults self.old ≤ faults self.new }
        ensures ready { ready self.new }
        ensures beside { beside self.new ≡ beside self.old }
        ensures gives { WriteGives (told self.old) (told self.new)
            (faults self.old) (faults self.new) bytes.now result };
}

/// A sink of named documents: what is written goes to the last one.
pub trait TraceStore: Sink {
    /// Begins an empty document, also where one of that name stands already.
    fn begin(&mut self, name: &str) -> bool
        ensures later { Self.faults self.old ≤ Self.faults self.new }
        ensures stays_ready { Self.ready self.old → Self.ready self.new }
        ensures ready { result ≡ true → Self.ready self.new }
        ensures quiet { result ≡ true → Self.faults self.new ≡ Self.faults self.old }
        ensures begun { result ≡ true
            → BeginsDocument (Self.told self.old) (Self.beside self.old)
            (Self.told self.new) (Self.beside self.new) name.now }
        ensures cause { result ≡ false → Rose (Self.faults self.old) (Self.faults self.new) }
        ensures told { result ≡ false → Self.told self.new ≡ Self.told self.old }
        ensures beside { result ≡ false → Self.beside self.new ≡ Self.beside self.old };
}

/// One worker's view of a clock.
pub trait Hand: Send + Drop {
    /// The next reading and the step to the one after it, where the hand tells them.
    ghost ticks: { Self → Option Ticks };

    /// Reads the microseconds.
    fn now(&mut self) -> u64
        ensures most { result ≤ last_reading }
        ensures ticks { Reads (ticks self.old) (ticks self.new) result };
}

/// A clock with a hand for each worker.
pub trait Clock {
    type Hand: Hand;

    /// What the hand of each worker tells at first, where the clock tells it.
    ghost ticks: { Self → ℕ → Option Ticks };

    /// Makes the hand of a worker.
    fn hand(&self, worker: u64) -> Self::Hand
        ensures { IfSome (ticks self.now worker)
            (λ told. Self.Hand.ticks result ≡ Some told) };
}
