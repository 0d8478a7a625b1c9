//! A number that contracts alone see. It takes no bytes, and its functions do nothing at run time.

ghost use Rattle.std.specs.Prelude.{◌≡◌, ℕ, ◌+◌};
ghost use Rattle.std.specs.Borrow.{ftrue};

use std::marker::Model;

/// How often something happened, for contracts alone. Only `tick` changes it.
#[derive(Drop)]
pub struct Count {
    pub ghost n: { ℕ },
}

impl Model for Count {
    ghost also_owns = { λ _. ftrue };
}

impl Count {
    /// A count of 0.
    pub fn new() -> Count
        ensures { result.n ≡ 0 }
    {
        Self {}
    }

    fn after(_before: &Count) -> Count
        ensures { result.n ≡ _before.now.n + 1 }
    {
        Count {}
    }

    /// Counts one more.
    pub fn tick(&mut self)
        ensures { self.new.n ≡ self.old.n + 1 }
    {
        *self = Count::after(self);
    }

    /// Counts so many more.
    pub fn ticks(&mut self, more: usize)
        ensures { self.new.n ≡ self.old.n + more }
    {
        for _ in 0..more {
            self.tick();
        }
    }
}
