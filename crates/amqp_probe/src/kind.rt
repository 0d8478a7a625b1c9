//! The types that a line can name.

ghost use Rattle.std.specs.Prelude.{◌≡◌, ◌≢◌, MatchOption};
ghost use Rattle.amqp_probe.specs.declared.kind.Kind.{Kind};
ghost use Rattle.amqp_probe.specs.Answer.{type_name};

/// A type whose bytes are decoded and encoded again.
#[derive(Clone, Copy, Debug, PartialEq, Eq)]
pub enum Kind {
    Bool,
    I32,
    U32,
    U64,
    String,
    Symbol,
    ListI32,
    ListU64,
    ListUnit,
    ListListI32,
    ListArrayI32,
    ArrayI32,
    ArrayString,
    OptionU32,
    TupleU32Bool,
    MapStringU32,
}

/// The type of that name; None where no type has it.
pub fn kind_named(name: &[u8]) -> Option<Kind>
    ensures { MatchOption result ((k : Kind) → name.now ≢ type_name k) (λ k.
        name.now ≡ type_name k) }
{
    match name {
        _ if name == b"bool".as_slice() => Some(Kind::Bool),
        _ if name == b"i32".as_slice() => Some(Kind::I32),
        _ if name == b"u32".as_slice() => Some(Kind::U32),
        _ if name == b"u64".as_slice() => Some(Kind::U64),
        _ if name == b"string".as_slice() => Some(Kind::String),
        _ if name == b"symbol".as_slice() => Some(Kind::Symbol),
        _ if name == b"list-i32".as_slice() => Some(Kind::ListI32),
        _ if name == b"list-u64".as_slice() => Some(Kind::ListU64),
        _ if name == b"list-unit".as_slice() => Some(Kind::ListUnit),
        _ if name == b"list-list-i32".as_slice() => Some(Kind::ListListI32),
        _ if name == b"list-array-i32".as_slice() => Some(Kind::ListArrayI32),
        _ if name == b"array-i32".as_slice() => Some(Kind::ArrayI32),
        _ if name == b"array-string".as_slice() => Some(Kind::ArrayString),
        _ if name == b"option-u32".as_slice() => Some(Kind::OptionU32),
        _ if name == b"tuple-u32-bool".as_slice() => Some(Kind::TupleU32Bool),
        _ if name == b"map-string-u32".as_slice() => Some(Kind::MapStringU32),
        _ => None,
    }
}
