//! The greatest of some numbers, which contracts alone see. It takes no bytes, and its functions do
//! nothing at run time.

ghost use Rattle.std.specs.Prelude.{◌≡◌, ℕ, max};
ghost use Rattle.std.specs.Borrow.{ftrue};

use std::marker::Model;

/// The greatest number so far, for contracts alone. Only `sees` changes it.
#[derive(Drop)]
pub(crate) struct Greatest {
    pub ghost n: { ℕ },
}

impl Model for Greatest {
    ghost also_owns = { λ _. ftrue };
}

impl Greatest {
    /// No number was seen, or 0 alone.
    pub(crate) fn new() -> Greatest
        ensures { result.n ≡ 0 }
    {
        Self {}
    }

    fn after(_before: &Greatest, _n: usize) -> Greatest
        ensures { result.n ≡ max _before.now.n _n }
    {
        Greatest {}
    }

    /// Sees one more.
    pub(crate) fn sees(&mut self, n: usize)
        ensures { self.new.n ≡ max self.old.n n }
    {
        *self = Greatest::after(self, n);
    }
}
