//! Arrays: values of one type under one constructor.

ghost use Rattle.amqp_base.specs.Meaning.{array_of};
ghost use Rattle.std.specs.Prelude.{◌≡◌, ◌==◌, ◌^◌, ◌<◌, length, map, refl, IfOk};
ghost use Rattle.std.specs.Prelude.{IfErr, vec_len};
ghost use Rattle.std.specs.Iterator.{Drains, IsFinite};
ghost use Rattle.std.specs.Iterator.Runs.{EveryRun, WholeRun, ItemsAre, ItemsMapTo};
ghost use Rattle.std.specs.List.{AllZip};
ghost use Rattle.std.specs.Slice.Iter.{iter_rest, iter_steps, iter_mut_rest, iter_mut_steps};
ghost use Rattle.std.specs.declared.alloc.Global.{Global};
ghost use Rattle.std.specs.Vec.Iter.{into_iter_items, into_iter_len, into_iter_steps};
ghost use Rattle.amqp_base.specs.declared.error.Error.TheVariants.{OutOfMemory};

use amqp_base::{Error, NeverNull, RoundTrip, Typed};
use std::alloc::Global;
use std::ops::{Deref, DerefMut};
use std::{slice, vec};

/// Values that are written as an array: all under one constructor, which stands before the first
/// one alone (part 1, section 1.6.24). So values whose items have different constructors can't be
/// written, as `Some(1i32)` beside `None`.
#[derive(Debug, PartialEq, Eq, PartialOrd, Ord, Hash, Drop)]
pub struct Array<T>(pub Vec<T>);

impl<T> Array<T> {
    /// An array of what an iterator gives, in order; `OutOfMemory` where it finds no memory.
    pub fn from_iter<I: IntoIterator<Item = T>>(alloc: Global, iter: I) -> Result<Array<T>, Error>
    where
        T: Drop,
        requires ends { (it : I.IntoIter) → I.into_iter_gives iter it →
            I.IntoIter.can_next it × IsFinite (I.IntoIter.remaining it) }
        ensures ok { IfOk result (λ a. (it : I.IntoIter) × I.into_iter_gives iter it ×
            Drains I.IntoIter.next_gives it a.0.items) }
        ensures runs { IfOk result (λ a. (it : I.IntoIter) × I.into_iter_gives iter it ×
            WholeRun I.IntoIter.next_gives it (λ p. a.0.items ≡ p.items)) }
        ensures err { IfErr result (λ e. e ≡ OutOfMemory) }
    {
        Ok(Array(iter.into_iter().collect(alloc)?))
    }

    /// Its elements.
    pub fn into_inner(self) -> Vec<T>
        ensures { result ≡ self.0 }
    {
        let Array(own) = self;
        own
    }

    /// How many elements it has.
    pub fn len(&self) -> usize
        ensures { result ≡ length self.now.0.items }
    {
        self.0.len()
    }

    /// Whether it has none.
    pub fn is_empty(&self) -> bool
        ensures { result ≡ (length self.now.0.items == 0) }
    {
        self.0.is_empty()
    }

    /// Another one of clones of the elements; `OutOfMemory` where they find no memory.
    pub fn clone(&self, alloc: Global) -> Result<Array<T>, Error>
    where
        T: Clone,
        ensures ok { IfOk result (λ a. AllZip T.is_clone self.now.0.items a.0.items) }
        ensures items_if_clones_equal { IfOk result
            (λ a. ((x y : T) → T.is_clone x y → y ≡ x) →
            a.0.items ≡ self.now.0.items) }
        ensures err { IfErr result (λ e. e ≡ OutOfMemory) }
    {
        Ok(Array(self.0.as_slice().to_vec(alloc)?))
    }
}

impl<T> From<Vec<T>> for Array<T> {
    ghost from_gives = { λ elements a. a.0 ≡ elements };

    fn from(elements: Vec<T>) -> Array<T> {
        Array(elements)
    }
}

impl<T> From<Array<T>> for Vec<T> {
    ghost from_gives = { λ array elements. elements ≡ array.0 };

    fn from(array: Array<T>) -> Vec<T> {
        array.into_inner()
    }
}

impl<T> Deref for Array<T> {
    type Target = Vec<T>;

    ghost deref_gives = { λ a elements. elements ≡ a.0 };

    #[inline]
    fn deref(&self) -> &Vec<T> {
        &self.0
    }
}

impl<T> DerefMut for Array<T> {
    ghost use Rattle.std.specs.Borrow.{Lends, sem};
    ghost use Rattle.amqp_types.specs.contracts.array.Array.{the_row};
    ghost use Rattle.amqp_types.specs.Rows.{elements_row};

    ghost deref_mut_gives = { λ a elements. elements ≡ a.0 };

    #[inline]
    fn deref_mut(&mut self) -> &mut Vec<T>
        ensures* writes_back { sem 𝓛
            (Lends (the_row T.row) (elements_row T.row) self.entry result
            (λ elements. record { 0 = elements })) }
        ensures shows { result.now ≡ self.old.0 }
    {
        &mut self.0
    }
}

impl<T: Drop> IntoIterator for Array<T> {
    type Item = T;

    type IntoIter = vec::IntoIter<T>;

    ghost into_iter_gives = { λ a it. (into_iter_items it ≡ a.0.items) ×
        (into_iter_len it ≡ vec_len a.0) × (into_iter_len it < 2 ^ 64) ×
        EveryRun (into_iter_steps {X = T} {Z = Global})
        (λ p. ItemsAre p (into_iter_items p.from)) };

    /// Its elements, in order.
    fn into_iter(self) -> vec::IntoIter<T> {
        self.into_inner().into_iter()
    }
}

impl<'a, T> IntoIterator for &'a Array<T> {
    type Item = &'a T;

    type IntoIter = slice::Iter<'a, T>;

    ghost into_iter_gives = { λ a it. (iter_rest it ≡ a.now.0.items) ×
        (length (iter_rest it) < 2 ^ 64) ×
        EveryRun (iter_steps {A = T}) (λ p. ItemsMapTo p (λ x. x.now) (iter_rest p.from)) };

    /// Its elements, in order.
    fn into_iter(self) -> slice::Iter<'a, T> {
        self.0.as_slice().iter()
    }
}

impl<'a, T> IntoIterator for &'a mut Array<T> {
    ghost use Rattle.std.specs.Borrow.{sem};
    ghost use Rattle.amqp_types.specs.Arrays.{lends_elements};

    type Item = &'a mut T;

    type IntoIter = slice::IterMut<'a, T>;

    ghost into_iter_gives = { λ a it. (iter_mut_rest it ≡ a.now.0.items) ×
        (length (iter_mut_rest it) < 2 ^ 64) ×
        EveryRun (iter_mut_steps {A = T})
        (λ p. ItemsMapTo p (λ x. x.now) (iter_mut_rest p.from)) };

    /// Its elements, in order, each to be changed.
    fn into_iter(self) -> slice::IterMut<'a, T>
        ensures* writes_back { sem 𝓛 (lends_elements T.row self.entry result) }
        ensures into_iter_gives { (iter_mut_rest result ≡ self.old.0.items) ×
            (length (iter_mut_rest result) < 2 ^ 64) ×
            EveryRun (iter_mut_steps {A = T})
            (λ p. ItemsMapTo p (λ x. x.now) (iter_mut_rest p.from)) }
    {
        self.0.as_mut_slice().iter_mut()
    }
}

impl<T: Typed> Typed for Array<T> {
    ghost meaning = { array_of T.meaning (λ v. v.0.items) };
}

impl<T: RoundTrip> RoundTrip for Array<T> {
    ghost reads_back = { T.reads_back };
}

impl<T: Typed> NeverNull for Array<T> {
    ghost never_null = { refl };
}
