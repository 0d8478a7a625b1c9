//! The texts of single numbers, outside arrays and as elements.

ghost use Rattle.std.specs.Prelude.{◌≢◌, ◌+◌, ◌≤◌, ◌∷◌, length};
ghost use Rattle.std.specs.Int.{bytes_high_first};
ghost use Rattle.amqp_base.specs.Item.{scalar, uint, ulong, int};
ghost use Rattle.amqp_base.specs.Wire.{under};
ghost use Rattle.amqp_base.specs.declared.format_code.EncodingCodes.TheVariants.{Uint, Ulong, Int};
ghost use Rattle.amqp_write.specs.State.{Mark, unmarked, other};
ghost use Rattle.amqp_write.specs.ManyTexts.{HasTextOf, IsFront, Puts};

use amqp_base::{Setting, Typed, codes};

/// Where a number's text stands, and so what it is.
pub trait Texts<T: Typed> {
    ghost mark: { Mark };

    /// The length of its text.
    fn text_len(v: T) -> u32
        ensures text { HasTextOf mark (T.meaning.item v Setting.Plain) result };

    /// Writes its text into the block from `at` on, whatever stands behind it: where the next may
    /// begin.
    fn put(v: T, block: &mut [u8], at: usize) -> usize
        requires room { at + 10 ≤ length block.old }
        ensures text { Puts mark (T.meaning.item v Setting.Plain) at block.old result block.new };
}

/// Outside arrays: its constructor, and its data in the shortest form.
pub struct Outside;

/// As a further element of an array whose first stands under the widest code of its kind: its data.
pub struct Element;

impl Texts<i32> for Outside {
    ghost mark = { unmarked };

    #[inline(always)]
    fn text_len(v: i32) -> u32 {
        let (_, _, len) = int_text(v);
        len
    }

    #[inline(always)]
    fn put(v: i32, block: &mut [u8], at: usize) -> usize {
        let (code, data, len) = int_text(v);
        block[at] = code;
        block[at + 1..at + 5].copy_from_slice(&data.to_be_bytes());
        at + len as usize
    }
}

impl Texts<u32> for Outside {
    ghost mark = { unmarked };

    #[inline(always)]
    fn text_len(v: u32) -> u32 {
        let (_, _, len) = uint_text(v);
        len
    }

    #[inline(always)]
    fn put(v: u32, block: &mut [u8], at: usize) -> usize {
        let (code, data, len) = uint_text(v);
        block[at] = code;
        block[at + 1..at + 5].copy_from_slice(&data.to_be_bytes());
        at + len as usize
    }
}

impl Texts<u64> for Outside {
    ghost mark = { unmarked };

    #[inline(always)]
    fn text_len(v: u64) -> u32 {
        let (_, _, len) = ulong_text(v);
        len
    }

    #[inline(always)]
    fn put(v: u64, block: &mut [u8], at: usize) -> usize {
        let (code, data, len) = ulong_text(v);
        block[at] = code;
        block[at + 1..at + 9].copy_from_slice(&data.to_be_bytes());
        at + len as usize
    }
}

impl Texts<i32> for Element {
    ghost mark = { other (under Int) };

    #[inline(always)]
    fn text_len(_v: i32) -> u32 {
        4
    }

    #[inline(always)]
    fn put(v: i32, block: &mut [u8], at: usize) -> usize {
        block[at..at + 4].copy_from_slice(&v.to_be_bytes());
        at + 4
    }
}

impl Texts<u32> for Element {
    ghost mark = { other (under Uint) };

    #[inline(always)]
    fn text_len(_v: u32) -> u32 {
        4
    }

    #[inline(always)]
    fn put(v: u32, block: &mut [u8], at: usize) -> usize {
        block[at..at + 4].copy_from_slice(&v.to_be_bytes());
        at + 4
    }
}

impl Texts<u64> for Element {
    ghost mark = { other (under Ulong) };

    #[inline(always)]
    fn text_len(_v: u64) -> u32 {
        8
    }

    #[inline(always)]
    fn put(v: u64, block: &mut [u8], at: usize) -> usize {
        block[at..at + 8].copy_from_slice(&v.to_be_bytes());
        at + 8
    }
}

/// The text of an int outside arrays, as the front of a code and four bytes, highest first: so
/// many bytes of them.
#[inline(always)]
fn int_text(v: i32) -> (u8, u32, u32)
    ensures text { IsFront (scalar (int v)) (result.0 ∷ bytes_high_first 4 result.1) result.2 }
{
    let bits = v.cast_unsigned();
    if v >= -128 && v <= 127 {
        return (codes::SMALL_INT, bits << 24, 2);
    }
    (codes::INT, bits, 5)
}

/// The text of an uint outside arrays, likewise. Each of its tests chooses a value and no way, so
/// that the loop over many has no branches.
#[inline(always)]
fn uint_text(v: u32) -> (u8, u32, u32)
    ensures text { IsFront (scalar (uint v)) (result.0 ∷ bytes_high_first 4 result.1) result.2 }
{
    let (some, data, len) = some_uint_text(v);
    let code = if v == 0 { codes::UINT0 } else { some };
    let len = if v == 0 { 1 } else { len };
    (code, data, len)
}

/// The text of an uint that isn't 0, likewise.
#[inline(always)]
fn some_uint_text(v: u32) -> (u8, u32, u32)
    ensures text { v ≢ 0 →
        IsFront (scalar (uint v)) (result.0 ∷ bytes_high_first 4 result.1) result.2 }
{
    if v < 256 {
        return (codes::SMALL_UINT, v << 24, 2);
    }
    (codes::UINT, v, 5)
}

/// The text of a ulong outside arrays, as the front of a code and eight bytes, highest first.
#[inline(always)]
fn ulong_text(v: u64) -> (u8, u64, u32)
    ensures text { IsFront (scalar (ulong v)) (result.0 ∷ bytes_high_first 8 result.1) result.2 }
{
    let (some, data, len) = some_ulong_text(v);
    let code = if v == 0 { codes::ULONG0 } else { some };
    let len = if v == 0 { 1 } else { len };
    (code, data, len)
}

/// The text of a ulong that isn't 0, likewise.
#[inline(always)]
fn some_ulong_text(v: u64) -> (u8, u64, u32)
    ensures text { v ≢ 0 →
        IsFront (scalar (ulong v)) (result.0 ∷ bytes_high_first 8 result.1) result.2 }
{
    if v < 256 {
        return (codes::SMALL_ULONG, v << 56, 2);
    }
    (codes::ULONG, v, 9)
}
