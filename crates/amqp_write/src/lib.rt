//! Where bytes go, where the next item stands, and the text of one value or header. A private
//! layer: users reach it through `amqp_ser`.
#![tactic(auto, unfolding(crate::specs::State::stand))]

mod blocks;
mod decimals;
mod described;
mod fixed;
mod floats;
mod header;
mod leaf;
mod many;
mod numbers;
mod pass;
mod payloads;
mod place;
mod refusal;
mod scalars;
mod signed;
mod sizes;
mod strings;
mod unsigned;

pub use blocks::{number_len, put_number};
pub use described::{Behind, is_too_long};
pub use leaf::Leaf;
pub use many::{Blocks, Many, Strings};
pub use numbers::{Element, Outside, Texts};
pub use pass::{Measure, Opened, Plan, Reserved};
pub use place::{Constructor, Mark, Place, first_mark, setting_inside};
pub use refusal::{Refusal, handed_on, no_memory, refused};
pub use sizes::Sizes;
pub use strings::{put_string, string_len};
