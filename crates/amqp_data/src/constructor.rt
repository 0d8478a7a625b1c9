//! What an item stands under.

ghost use Rattle.std.specs.Prelude.{◌≡◌};
ghost use Rattle.amqp_base.specs.Codes.{row};
ghost use Rattle.amqp_data.specs.Places.{constructor_of, least_width, own_width};

use amqp_base::{Category, EncodingCodes};
use amqp_types::Descriptor;
use std::convert::TryFrom;

/// What an item stands under: a code of its own, the code of an array's elements, or their
/// descriptor and code.
#[derive(Debug, Drop)]
pub enum Constructor {
    Bare,
    Under(EncodingCodes),
    UnderPair(Descriptor, EncodingCodes),
}

/// Where the elements of an array must have ended: at most `room` bytes behind `start`.
#[derive(Drop)]
pub struct Limit {
    pub start: usize,
    pub room: u32,
}

/// How many bytes an item takes at least under a constructor.
#[inline(always)]
pub fn least_width(constructor: &Constructor) -> usize
    ensures { result ≡ least_width (constructor_of constructor.now) }
{
    match constructor {
        Constructor::Bare => 1,
        Constructor::Under(code) => own_width(*code),
        Constructor::UnderPair(_, code) => own_width(*code),
    }
}

/// The width that a code's category names: of data, of a length, or of a size and a count.
pub fn own_width(code: EncodingCodes) -> usize
    ensures { result ≡ own_width (row code).category }
{
    match Category::try_from(code) {
        Ok(Category::Fixed(n)) => n,
        Ok(Category::Variable(w)) => w,
        Ok(Category::Compound(w)) => w,
        Ok(Category::Array(w)) => w,
        Err(_) => 0,
    }
}
