//! What stands behind a code, by which a value is measured without reading it.

ghost use Rattle.std.specs.Prelude.{◌≡◌, ◌==◌, if◌then◌else◌};
ghost use Rattle.amqp_read.specs.Raw.{DataOf};

use amqp_base::{Category, EncodingCodes, Error, IsDescribed};

/// The data behind a code: so many bytes, or a size of 1 or 4 bytes, which says how many follow.
#[derive(Clone, Copy)]
pub(crate) enum Data {
    Fixed(usize),
    Size8,
    Size32,
}

/// What stands behind the code of this byte, by its category (part 1, section 1.2).
/// `InvalidFormatCode`: the byte is no code, or 0x00, which has no data of its own.
pub(crate) fn data_of(code: u8) -> Result<Data, Error>
    ensures { DataOf code result }
{
    let code = match EncodingCodes::try_from(code) {
        Ok(code) => code,
        Err(e) => return Err(e),
    };
    match Category::try_from(code) {
        Ok(Category::Fixed(width)) => Ok(Data::Fixed(width)),
        Ok(Category::Variable(width)) => Ok(sized(width)),
        Ok(Category::Compound(width)) => Ok(sized(width)),
        Ok(Category::Array(width)) => Ok(sized(width)),
        Err(IsDescribed) => Err(Error::InvalidFormatCode),
    }
}

/// A size of so many bytes, 1 or 4.
fn sized(width: usize) -> Data
    ensures { result ≡ (if width == 1 then Data.Size8 else Data.Size32) }
{
    if width == 1 {
        Data::Size8
    } else {
        Data::Size32
    }
}
