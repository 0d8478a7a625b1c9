//! Types that have some of the values of another.

ghost use Rattle.std.specs.Prelude.{IfOk, IfErr};
ghost use Rattle.amqp_de.specs.Calls.{IsRead, IsRefused, IsNamed};

use crate::{Deserialize, Deserializer};
use amqp_base::{Error, Typed};
use amqp_read::Read;
use std::alloc::Global;

/// A type that has some of the values of another, as an enumeration over `u8` has. It is read by
/// `Deserializer::deserialize_chosen`.
pub trait Chosen: Typed + Sized {
    ghost use Rattle.std.specs.Prelude.{◌≡◌, Bool, false, Some, None};
    ghost use Rattle.amqp_base.specs.Chosen.{ChosenFrom};

    /// The type that has them all.
    type Of: Typed;

    /// The value of that type.
    ghost content: { Self → Self.Of };

    /// Whether a value of that type is one of these.
    ghost allowed: { Self.Of → Bool };

    /// The value that is this one; `None` where it is none of these.
    fn choose(value: Self::Of) -> Option<Self>
        ensures some { (v : Self) → result ≡ Some v → content v ≡ value }
        ensures none { result ≡ None → allowed value ≡ false };

    /// Both mean the same, as far as both have values.
    ghost chosen: { ChosenFrom ⟦<Self::Of as Typed>⟧.meaning Self.meaning content allowed };
}

impl<R: Read> Deserializer<R> {
    /// Reads a value of a type that has some of the values of another.
    ///
    /// The refusals are those of that type, and `InvalidValue` where the value is none of these;
    /// then the deserializer isn't ended, and stands behind it.
    pub fn deserialize_chosen<T: Chosen>(&mut self, alloc: Global) -> Result<T, Error>
    where
        T::Of: Deserialize<R>,
        ensures ok { IfOk result (λ v. IsRead T.meaning v self.old self.new) }
        ensures err { IfErr result (λ e. IsRefused T.meaning R.buffers self.old self.new e) }
        ensures named { IfErr result (λ e. IsNamed T.meaning R.buffers self.old self.new e) }
    {
        match <T::Of as Deserialize<R>>::deserialize(alloc, self) {
            Ok(value) => match T::choose(value) {
                Some(chosen) => Ok(chosen),
                None => Err(Error::InvalidValue),
            },
            Err(e) => Err(e),
        }
    }
}
