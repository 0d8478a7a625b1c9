//! The sizes of the compounds in a value.

ghost use Rattle.std.specs.Prelude.{◌≡◌, ◌+◌, ◌∷◌, ◌<◌, [], IfSome, IsTrue};
ghost use Rattle.std.specs.Prelude.{drop, set};
ghost use Rattle.amqp_write.specs.Passes.{HasPlace, listed};
ghost use Rattle.amqp_write.specs.State.{size_in};

use amqp_base::Size;
use std::alloc::Global;

/// So many sizes need nothing of the heap.
const FEW: usize = 4;

/// Room for so many more is asked for at once.
const MANY: usize = 1024;

/// A size that isn't known yet.
const UNKNOWN: Size = Size {
    length: 0,
    count: 0,
};

/// Sizes of compounds, in the order in which they opened: the first ones in place, the others on
/// the heap.
#[derive(Drop)]
pub struct Sizes {
    few: [Size; FEW],
    count: usize,
    more: Vec<Size>,
}

impl Sizes {
    /// None yet.
    #[inline(always)]
    pub fn new(alloc: Global) -> Sizes
        ensures { listed result ≡ [] }
    {
        Sizes {
            few: [UNKNOWN; FEW],
            count: 0,
            more: Vec::new(alloc),
        }
    }

    /// Makes a place for one more, which isn't known yet: the place. `None`: there is no memory.
    #[inline(always)]
    pub fn open(&mut self) -> Option<usize>
        ensures { IfSome result (λ at. HasPlace (listed self.old) at (listed self.new)) }
    {
        let at = self.count;
        if at < FEW && self.more.is_empty() {
            self.count = at + 1;
            return Some(at);
        }
        if at == FEW && self.more.len() < self.more.capacity() {
            let behind = FEW + self.more.len();
            self.more.push_reserved(UNKNOWN);
            return Some(behind);
        }
        self.open_more()
    }

    /// Makes a place behind those that stand in place.
    #[inline(never)]
    fn open_more(&mut self) -> Option<usize>
        ensures { IfSome result (λ at. HasPlace (listed self.old) at (listed self.new)) }
    {
        if self.count != FEW {
            return None;
        }
        if self.more.is_empty() && self.more.reserve_exact(MANY).is_err() {
            return None;
        }
        let at = FEW + self.more.len();
        match self.more.push(UNKNOWN) {
            Ok(()) => Some(at),
            Err(_) => None,
        }
    }

    /// Sets the size at a place. Whether there is one.
    #[inline(always)]
    pub fn set(&mut self, at: usize, size: Size) -> bool
        ensures { IsTrue result → listed self.new ≡ set (listed self.old) at (size_in size) }
    {
        if at < FEW {
            if at < self.count {
                self.few[at] = size;
                return true;
            }
            return false;
        }
        if self.count == FEW && at - FEW < self.more.len() {
            self.more[at - FEW] = size;
            return true;
        }
        false
    }

    /// The size at a place.
    #[inline(always)]
    pub fn get(&self, at: usize) -> Option<Size>
        ensures first { IfSome result (λ z.
            drop at (listed self.now) ≡ size_in z ∷ drop (at + 1) (listed self.now)) }
        ensures bound { IfSome result (λ _. at < usize.MAX) }
    {
        if at < FEW {
            if at < self.count {
                return Some(self.few[at]);
            }
            return None;
        }
        if self.count == FEW && at - FEW < self.more.len() {
            return Some(self.more[at - FEW]);
        }
        None
    }
}
