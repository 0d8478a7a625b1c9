//! Three values over ubyte.

ghost use Rattle.std.specs.Prelude.{false, refl};
ghost use Rattle.amqp_base.specs.Meaning.{chosen_of};
ghost use Rattle.amqp_base.specs.Chosen.{chosen_from};
ghost use Rattle.amqp_base.specs.Sorts.{as_ubyte};
ghost use Rattle.own_types.specs.Priorities.{number_of, is_priority, has_number};

use serde_amqp::{
    Chosen, Deserialize, Deserializer, Error, NeverNull, Read, RoundTrip, Serialize, Serializer,
    Sink, Typed,
};
use std::alloc::Global;

/// How soon something is wanted, as a ubyte: 0, 1 or 2. Another number is refused as
/// `InvalidValue`.
#[derive(Clone, Copy, Drop)]
pub enum Priority {
    /// Some time.
    Low,
    /// In turn.
    Normal,
    /// At once.
    High,
}

impl Typed for Priority {
    ghost meaning = { chosen_of as_ubyte false number_of is_priority has_number };
}

impl RoundTrip for Priority {
    ghost reads_back = { refl };
}

impl NeverNull for Priority {
    ghost never_null = { refl };
}

impl Serialize for Priority {
    fn serialize<W: Sink>(&self, alloc: Global, ser: &mut Serializer<W>) -> Result<(), Error> {
        match self {
            Priority::Low => ser.serialize_u8(alloc, 0),
            Priority::Normal => ser.serialize_u8(alloc, 1),
            Priority::High => ser.serialize_u8(alloc, 2),
        }
    }
}

impl Chosen for Priority {
    type Of = u8;

    ghost content = { number_of };

    ghost allowed = { is_priority };

    ghost chosen = { chosen_from as_ubyte false number_of is_priority has_number };

    fn choose(value: u8) -> Option<Priority> {
        match value {
            0 => Some(Priority::Low),
            1 => Some(Priority::Normal),
            2 => Some(Priority::High),
            _ => None,
        }
    }
}

impl<R: Read> Deserialize<R> for Priority {
    fn deserialize(alloc: Global, de: &mut Deserializer<R>) -> Result<Priority, Error> {
        de.deserialize_chosen(alloc)
    }
}
