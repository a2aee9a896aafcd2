//! How many lines were opened.

ghost use Rattle.std.specs.Prelude.{◌≡◌};

use std::marker::Model;

/// How many lines were opened. It is made by `Store::meter` alone, and is not copied.
#[derive(Drop)]
pub struct Opened {
    pub(crate) count: u64,
}

impl Model for Opened {
    ghost use Rattle.std.specs.Prelude.{ℕ};

    ghost Value = { ℕ };

    ghost view = { λ o. o.count };
}

impl Opened {
    /// How many lines were opened.
    pub fn count(&self) -> u64
        ensures { result ≡ self.now }
    {
        self.count
    }

    /// Counts anew, from 0.
    pub fn restart(&mut self)
        ensures { self.new ≡ 0 }
    {
        self.count = 0;
    }
}
