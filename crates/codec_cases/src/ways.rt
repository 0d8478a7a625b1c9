//! The ways in which a value is read: from a slice, and from sources that give so many bytes a
//! read. What is refused for want of memory is read once more.

use crate::answer::{Answer, is_refused};
use crate::kind::{Kind, Lent, Own, Owned};
use crate::pieces::cut;
use crate::{lent, own, owned, whole};
use serde_amqp::{Counted, Deserializer, IoReader, Read, SliceReader};
use std::alloc::Global;

/// The text of a value and how many bytes stand behind it, or the refusal.
pub(crate) type Outcome = Result<(Vec<u8>, usize), Answer>;

/// A type of which any reader reads a value.
#[derive(Clone, Copy)]
pub(crate) enum Any {
    Owned(Owned),
    Own(Own),
}

/// The text with so many bytes behind it.
pub(crate) fn behind(outcome: Result<Vec<u8>, Answer>, rest: usize) -> Outcome {
    match outcome {
        Ok(text) => Ok((text, rest)),
        Err(name) => Err(name),
    }
}

/// What the type answers. Where memory is wanting nothing is answered behind it.
fn once<R: Read>(de: &mut Deserializer<R>, alloc: Global, of: Any) -> Result<Vec<u8>, Answer> {
    let outcome = match of {
        Any::Owned(of) => owned::read(de, alloc, of),
        Any::Own(of) => own::read(de, alloc, of),
    };
    match outcome {
        Ok(text) => Ok(text),
        Err(name) => Err(ended(de, name)),
    }
}

/// The refusal, or that another call is answered behind want of memory.
fn ended<R: Read>(de: &mut Deserializer<R>, name: Answer) -> Answer {
    if name != Answer::OutOfMemory || is_refused(de.deserialize_u32(), Answer::InvalidValue) {
        name
    } else {
        Answer::GoesOn
    }
}

/// From a slice.
fn of_slice(alloc: Global, of: Any, bytes: &[u8]) -> Outcome {
    let mut de = Deserializer::new(SliceReader::new(bytes));
    let outcome = once(&mut de, alloc, of);
    let consumed = de.into_reader().bytes_consumed();
    behind(outcome, bytes.len().saturating_sub(consumed))
}

/// From a source, and what is then left in it.
fn of_source(alloc: Global, of: Any, bytes: &[u8], most: usize) -> Outcome {
    let mut de = Deserializer::new(IoReader::new(alloc, Counted::new(cut(bytes, most))));
    let outcome = once(&mut de, alloc, of);
    let source = de.into_reader().into_inner();
    behind(outcome, source.into_inner().rest.len())
}

/// What is lent by a slice.
fn of_lender(alloc: Global, of: Lent, bytes: &[u8]) -> Outcome {
    let mut de = Deserializer::new(SliceReader::new(bytes));
    let outcome = lent::read(&mut de, alloc, of);
    let consumed = de.into_reader().bytes_consumed();
    behind(outcome, bytes.len().saturating_sub(consumed))
}

/// The two are the same text and count, or the same refusal.
pub(crate) fn is_same(one: &Outcome, other: &Outcome) -> bool {
    match one {
        Ok((text, rest)) => match other {
            Ok((another, count)) => text.as_slice() == another.as_slice() && *rest == *count,
            Err(_) => false,
        },
        Err(name) => match other {
            Ok(_) => false,
            Err(another) => *name == *another,
        },
    }
}

/// From a slice, once more where memory is wanting.
fn of_slice_again(alloc: Global, of: Any, bytes: &[u8]) -> Outcome {
    match of_slice(alloc, of, bytes) {
        Ok(found) => Ok(found),
        Err(Answer::OutOfMemory) => of_slice(alloc, of, bytes),
        Err(name) => Err(name),
    }
}

/// From a source, once more where memory is wanting.
fn of_source_again(alloc: Global, of: Any, bytes: &[u8], most: usize) -> Outcome {
    match of_source(alloc, of, bytes, most) {
        Ok(found) => Ok(found),
        Err(Answer::OutOfMemory) => of_source(alloc, of, bytes, most),
        Err(name) => Err(name),
    }
}

/// What each reader answers.
fn of_each(alloc: Global, of: Any, bytes: &[u8]) -> Outcome {
    let outcome = of_slice_again(alloc, of, bytes);
    let mut are_same = true;
    for most in [1, 2, 7] {
        are_same = is_same(&outcome, &of_source_again(alloc, of, bytes, most)) && are_same;
    }
    if are_same {
        outcome
    } else {
        Err(Answer::Differs)
    }
}

/// What is lent, once more where memory is wanting.
fn lent_again(alloc: Global, of: Lent, bytes: &[u8]) -> Outcome {
    match of_lender(alloc, of, bytes) {
        Ok(found) => Ok(found),
        Err(Answer::OutOfMemory) => of_lender(alloc, of, bytes),
        Err(name) => Err(name),
    }
}

/// What the type answers to the bytes.
pub(crate) fn outcome(alloc: Global, kind: Kind, bytes: &[u8]) -> Outcome {
    match kind {
        Kind::Owned(of) => of_each(alloc, Any::Owned(of), bytes),
        Kind::Own(of) => of_each(alloc, Any::Own(of), bytes),
        Kind::Lent(of) => lent_again(alloc, of, bytes),
        Kind::Whole(of) => whole::of(alloc, of, bytes),
    }
}
