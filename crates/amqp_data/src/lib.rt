//! The data behind a format code: headers, element constructors, payloads, the data of each
//! primitive type. A private layer: users reach it through `amqp_de`.
#![tactic(auto)]

mod ahead;
mod constructor;
mod decimals;
mod floats;
mod header;
mod heading;
mod keys;
mod leaf;
mod lent;
mod numbers;
mod payloads;
mod scalars;
mod signed;
mod unsigned;

pub use ahead::descriptor_ahead;
pub use constructor::{Constructor, Limit, least_width, own_width};
pub use decimals::decimal_data;
pub use floats::{AsDouble, AsFloat};
pub use header::{list_count, map_count};
pub use heading::{Heading, descriptor, seq_heading};
pub use keys::{Key, key_data};
pub use leaf::Leaf;
pub use lent::{lent_bytes, lent_text};
pub use numbers::byte;
pub use payloads::{AsBinary, AsString, AsSymbol};
pub use scalars::{AsBoolean, AsChar, AsNull, AsTimestamp, AsUuid};
pub use signed::{AsByte, AsInt, AsLong, AsShort};
pub use unsigned::{AsUbyte, AsUint, AsUlong, AsUshort};
