//! Bytes printed in hexadecimal.

ghost use Rattle.std.specs.Fmt.{WritesOnOk, digits};
ghost use Rattle.amqp_types.specs.Printed.{byte_digits, bytes_text, behind_hyphen, uuid_text};

use amqp_base::UUID_WIDTH;
use std::fmt;

/// A uuid's bytes in groups of 8, 4, 4, 4 and 12 digits, with hyphens between.
#[tactic(auto, unfolding(crate::specs::Printed::uuid_text))]
pub(crate) fn write_uuid<W: fmt::Write>(
    bytes: &[u8; UUID_WIDTH],
    upper: bool,
    f: &mut fmt::Formatter<W>,
) -> fmt::Result
    ensures { WritesOnOk W.write_str_gives f.old result (uuid_text upper bytes.now) f.new }
{
    write_bytes(&bytes[..4], true, upper, f)?;
    write_group(&bytes[4..6], upper, f)?;
    write_group(&bytes[6..8], upper, f)?;
    write_group(&bytes[8..10], upper, f)?;
    write_group(&bytes[10..], upper, f)
}

/// A hyphen and the bytes of the group behind it.
fn write_group<W: fmt::Write>(group: &[u8], upper: bool, f: &mut fmt::Formatter<W>) -> fmt::Result
    ensures { WritesOnOk W.write_str_gives f.old result (behind_hyphen upper group.now) f.new }
{
    f.write_str("-")?;
    write_bytes(group, true, upper, f)
}

/// The bytes one after the other, each in `two` digits or without a leading zero.
pub(crate) fn write_bytes<W: fmt::Write>(
    bytes: &[u8],
    two: bool,
    upper: bool,
    f: &mut fmt::Formatter<W>,
) -> fmt::Result
    ensures { WritesOnOk W.write_str_gives f.old result (bytes_text two upper bytes.now) f.new }
{
    for byte in bytes {
        write_byte(*byte, two, upper, f)?;
    }
    Ok(())
}

fn write_byte<W: fmt::Write>(
    byte: u8,
    two: bool,
    upper: bool,
    f: &mut fmt::Formatter<W>,
) -> fmt::Result
    ensures { WritesOnOk W.write_str_gives f.old result (byte_digits two upper byte) f.new }
{
    if two && byte < 16 {
        f.write_str("0")?;
    }
    write_digits(byte, upper, f)
}

fn write_digits<W: fmt::Write>(byte: u8, upper: bool, f: &mut fmt::Formatter<W>) -> fmt::Result
    ensures { WritesOnOk W.write_str_gives f.old result (digits 16 upper byte) f.new }
{
    if upper {
        write!(f, "{byte:X}")
    } else {
        write!(f, "{byte:x}")
    }
}
