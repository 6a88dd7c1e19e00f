ghost use Rattle.std.specs.Prelude.{◌≡◌, ◌<◌, [], ◌∷◌, ◌++◌, OnOk, OnErr};
ghost use Rattle.std.specs.List.{All};
ghost use Rattle.rail.specs.Items.{IsRising};

use std::alloc::{AllocError, Global};
use std::marker::Model;

/// The numbers of the pieces that a worker counted, in rising order.
#[derive(Drop)]
pub struct Drawn {
    numbers: Vec<u64>,
}

impl Model for Drawn {
    ghost use Rattle.std.specs.Prelude.{List, ℕ};
    ghost use Rattle.rail.specs.Items.{IsRising};

    ghost Value = { List ℕ };

    ghost view = { λ d. d.numbers.items };

    ghost invariant = { λ d. IsRising d.numbers.items };
}

impl Drawn {
    pub(crate) fn new(alloc: Global) -> Drawn
        ensures { result ≡ [] }
    {
        Drawn {
            numbers: Vec::new(alloc),
        }
    }

    pub(crate) fn push(&mut self, number: u64) -> Result<(), AllocError>
        requires { All (λ n. n < number) self.old }
        ensures ok { OnOk result (self.new ≡ self.old ++ number ∷ []) }
        ensures err { OnErr result (self.new ≡ self.old) }
    {
        self.numbers.push(number)?;
        Ok(())
    }

    pub fn numbers(&self) -> &[u64]
        ensures numbers { result.now ≡ self.now }
        ensures rising { IsRising self.now }
    {
        self.numbers.as_slice()
    }
}
