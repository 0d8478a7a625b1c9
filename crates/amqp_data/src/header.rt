//! Sizes and counts in front of a body: the one place where they are read.

ghost use Rattle.std.specs.Prelude.{nat_lt, ◌&&◌, ◌≡◌, ◌⊎◌, ◌%◌, false, None};
ghost use Rattle.std.specs.Prelude.{IfOk, IfErr};
ghost use Rattle.amqp_base.specs.Wire.{bare};
ghost use Rattle.amqp_data.specs.Parts.{Header, HasParts, HasPairs, OpensData};
ghost use Rattle.amqp_base.specs.Parse.{header_at, least_size, behind_byte, list_data, pairs_at};
ghost use Rattle.amqp_base.specs.Parse.{map_data};
ghost use Rattle.amqp_data.specs.Steps.{Rejects, ParsesAs};

use crate::numbers::number;
use amqp_base::{Error, MAX_ARRAY_COUNT, codes};
use amqp_read::Read;

/// The most elements of a list or an array, and keys and values of a map.
const MOST: u32 = MAX_ARRAY_COUNT as u32;

/// The size and the count, which keep the rule of every header.
#[inline(always)]
pub(crate) fn header<R: Read>(
    reader: &mut R,
    width: u32,
    is_array: bool,
) -> Result<(u32, u32), Error>
    requires { (width ≡ 1) ⊎ (width ≡ 4) }
    ensures ok { IfOk result (λ h.
        Header width is_array h.0 h.1 (R.reading reader.old) (R.reading reader.new)) }
    ensures err { IfErr result (λ e. Rejects R.buffers R.buffers (header_at width is_array)
        (R.reading reader.old) (R.reading reader.new) e) }
{
    let size = match number(reader, width) {
        Ok(size) => size,
        Err(e) => return Err(e),
    };
    let count = match number(reader, width) {
        Ok(count) => count,
        Err(e) => return Err(e),
    };
    if count > MOST {
        return Err(Error::InvalidValue);
    }
    if passes_size(is_array, size, count) {
        return Err(Error::InvalidValue);
    }
    if size < least_size(width, is_array, count) {
        return Err(Error::InvalidLength);
    }
    Ok((size, count))
}

/// Whether an array has more elements than its size has bytes.
#[inline(always)]
fn passes_size(is_array: bool, size: u32, count: u32) -> bool
    ensures { result ≡ (is_array && nat_lt size count) }
{
    is_array && size < count
}

/// What a size must cover: the count's own bytes, and in an array with elements the first byte of
/// their constructor; in one without elements nothing.
#[inline(always)]
fn least_size(width: u32, is_array: bool, count: u32) -> u32
    requires { (width ≡ 1) ⊎ (width ≡ 4) }
    ensures { result ≡ least_size width is_array count }
{
    if !is_array {
        return width;
    }
    if count == 0 { 0 } else { width + 1 }
}

/// The data of a list up to its elements: how many there are.
#[inline(always)]
pub fn list_count<R: Read>(reader: &mut R, code: u8) -> Result<u32, Error>
    ensures ok { IfOk result (λ n.
        OpensData HasParts code (R.reading reader.old) (R.reading reader.new) bare n None) }
    ensures exact { IfOk result (λ n.
        ParsesAs (behind_byte list_data code) (R.reading reader.old) (R.reading reader.new) n) }
    ensures err { IfErr result (λ e. Rejects R.buffers R.buffers (behind_byte list_data code)
        (R.reading reader.old) (R.reading reader.new) e) }
{
    match code {
        codes::LIST0 => Ok(0),
        codes::LIST8 => match header(reader, 1, false) {
            Ok((_, count)) => Ok(count),
            Err(e) => Err(e),
        },
        codes::LIST32 => match header(reader, 4, false) {
            Ok((_, count)) => Ok(count),
            Err(e) => Err(e),
        },
        _ => Err(Error::InvalidFormatCode),
    }
}

/// The size and the count of a map, which counts keys and values.
#[inline(always)]
fn map_header<R: Read>(reader: &mut R, width: u32) -> Result<(u32, u32), Error>
    requires { (width ≡ 1) ⊎ (width ≡ 4) }
    ensures ok { IfOk result (λ h.
        Header width false h.0 h.1 (R.reading reader.old) (R.reading reader.new)) }
    ensures even { IfOk result (λ h. h.1 % 2 ≡ 0) }
    ensures err { IfErr result (λ e. Rejects R.buffers R.buffers (pairs_at width)
        (R.reading reader.old) (R.reading reader.new) e) }
{
    match header(reader, width, false) {
        Ok((size, count)) => {
            if count % 2 == 1 {
                return Err(Error::InvalidLength);
            }
            Ok((size, count))
        }
        Err(e) => Err(e),
    }
}

/// The data of a map up to its first key: how many keys and values there are.
#[inline(always)]
pub fn map_count<R: Read>(reader: &mut R, code: u8) -> Result<u32, Error>
    ensures ok { IfOk result (λ n.
        OpensData HasPairs code (R.reading reader.old) (R.reading reader.new) bare n None) }
    ensures even { IfOk result (λ n. n % 2 ≡ 0) }
    ensures exact { IfOk result (λ n.
        ParsesAs (behind_byte map_data code) (R.reading reader.old) (R.reading reader.new) n) }
    ensures err { IfErr result (λ e. Rejects R.buffers R.buffers (behind_byte map_data code)
        (R.reading reader.old) (R.reading reader.new) e) }
{
    match code {
        codes::MAP8 => match map_header(reader, 1) {
            Ok((_, count)) => Ok(count),
            Err(e) => Err(e),
        },
        codes::MAP32 => match map_header(reader, 4) {
            Ok((_, count)) => Ok(count),
            Err(e) => Err(e),
        },
        _ => Err(Error::InvalidFormatCode),
    }
}
