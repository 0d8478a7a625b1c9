//! Numbers, many at a time: elements of a fixed width, and parts of a list.

ghost use Rattle.std.specs.Prelude.{ℕ, ◌≡◌, ◌*◌, ◌+◌, ◌<◌, ◌≤◌};
ghost use Rattle.std.specs.Prelude.{◌⊎◌, length, IsTrue, false, take, vec_len, vec_capacity};
ghost use Rattle.std.specs.Prelude.{slice_index_or, if◌then◌else◌};
ghost use Rattle.amqp_base.specs.declared.format_code.EncodingCodes.{EncodingCodes};
ghost use Rattle.amqp_base.specs.declared.format_code.EncodingCodes.TheVariants.{Uint, Ulong};
ghost use Rattle.amqp_base.specs.declared.format_code.EncodingCodes.TheVariants.{Int};
ghost use Rattle.amqp_base.specs.Wire.{bare, under};
ghost use Rattle.amqp_data.specs.Parts.{Within};
ghost use Rattle.amqp_de.specs.Many.{ReadsMany, IsElement, PutBehind};
ghost use Rattle.amqp_data.specs.Places.{limit_of};
ghost use Rattle.amqp_de.specs.Seq.{at_open};

use crate::Deserializer;
use crate::list::Open;
use crate::many::Many;
use amqp_base::{EncodingCodes, Error, Typed, codes};
use amqp_data::{Constructor, Limit};
use amqp_read::Read;
use std::alloc::Global;

/// A number whose data take `W` bytes under its widest code.
pub(crate) trait Wide<const W: usize>: Typed + Copy {
    ghost widest: { EncodingCodes };

    /// Whether this is its widest code.
    fn is_under(code: EncodingCodes) -> bool
        ensures { IsTrue result → code ≡ Self.widest };

    /// The number that the data under this code are.
    fn of_data(bytes: &[u8]) -> Self
        requires { length bytes.now ≡ W }
        ensures { IsElement Self.meaning (under Self.widest) bytes.now result };

    /// The number at the front of the bytes with a constructor of its own, and how many bytes it
    /// is; 0 where none stands there as a whole.
    fn at_front(bytes: &[u8]) -> (Self, usize)
        requires { 0 < length bytes.now }
        ensures few { result.1 ≤ length bytes.now }
        ensures number { 0 < result.1 →
            IsElement Self.meaning bare (take result.1 bytes.now) result.0 };

    /// The same where a byte stands behind its longest form, with the byte behind it; `code` is its
    /// constructor.
    fn with_next(code: u8, bytes: &[u8]) -> (Self, usize, u8)
        requires room { W + 2 ≤ length bytes.now }
        requires code { slice_index_or bytes.now 0 0 ≡ code }
        ensures few { result.1 ≤ W + 1 }
        ensures number { 0 < result.1 →
            IsElement Self.meaning bare (take result.1 bytes.now) result.0 }
        ensures next { 0 < result.1 → slice_index_or bytes.now result.1 0 ≡ result.2 };
}

/// The length of a number's form, and the byte behind it: one byte of code, and behind it `width`
/// bytes of data, one or none. 0 where it is none of these. All are looked at, as a choice between
/// them would be a branch, often guessed wrong.
#[inline(always)]
fn behind_form(
    width: usize,
    is_wide: bool,
    is_small: bool,
    is_zero: bool,
    bytes: &[u8],
) -> (usize, u8)
    requires width { (0 < width) × (width ≤ 8) }
    requires room { width + 2 ≤ length bytes.now }
    requires one { (IsTrue is_wide → (is_small ≡ false) × (is_zero ≡ false))
        × (IsTrue is_small → is_zero ≡ false) }
    ensures len { result.0 ≡ (if is_wide then width + 1 else if is_small then 2
        else if is_zero then 1 else 0) }
    ensures next { 0 < result.0 → slice_index_or bytes.now result.0 0 ≡ result.1 }
{
    let wide_next = bytes[width + 1] * is_wide as u8;
    let small_next = bytes[2] * is_small as u8;
    let zero_next = bytes[1] * is_zero as u8;
    (
        (width + 1) * is_wide as usize + 2 * is_small as usize + is_zero as usize,
        wide_next.wrapping_add(small_next).wrapping_add(zero_next),
    )
}

impl Wide<4> for i32 {
    ghost widest = { Int };

    #[inline(always)]
    fn is_under(code: EncodingCodes) -> bool {
        match code {
            EncodingCodes::Int => true,
            _ => false,
        }
    }

    #[inline(always)]
    fn of_data(bytes: &[u8]) -> i32 {
        match bytes.first_chunk::<4>() {
            Some(data) => i32::from_be_bytes(*data),
            None => 0,
        }
    }

    #[inline(always)]
    fn at_front(bytes: &[u8]) -> (i32, usize) {
        match bytes[0] {
            codes::SMALL_INT if bytes.len() >= 2 => (i8::from_be_bytes([bytes[1]]) as i32, 2),
            codes::INT if bytes.len() >= 5 => (Self::of_data(&bytes[1..5]), 5),
            _ => (0, 0),
        }
    }

    #[inline(always)]
    fn with_next(code: u8, bytes: &[u8]) -> (i32, usize, u8) {
        let is_wide = code == codes::INT;
        let is_small = code == codes::SMALL_INT;
        let wide = Self::of_data(&bytes[1..5]);
        let small = i8::from_be_bytes([bytes[1]]) as i32;
        let number = if is_wide { wide } else { small };
        let (len, next) = behind_form(4, is_wide, is_small, false, bytes);
        (number, len, next)
    }
}

impl Wide<4> for u32 {
    ghost widest = { Uint };

    #[inline(always)]
    fn is_under(code: EncodingCodes) -> bool {
        match code {
            EncodingCodes::Uint => true,
            _ => false,
        }
    }

    #[inline(always)]
    fn of_data(bytes: &[u8]) -> u32 {
        match bytes.first_chunk::<4>() {
            Some(data) => u32::from_be_bytes(*data),
            None => 0,
        }
    }

    #[inline(always)]
    fn at_front(bytes: &[u8]) -> (u32, usize) {
        match bytes[0] {
            codes::UINT0 => (0, 1),
            codes::SMALL_UINT if bytes.len() >= 2 => (bytes[1] as u32, 2),
            codes::UINT if bytes.len() >= 5 => (Self::of_data(&bytes[1..5]), 5),
            _ => (0, 0),
        }
    }

    #[inline(always)]
    fn with_next(code: u8, bytes: &[u8]) -> (u32, usize, u8) {
        let is_wide = code == codes::UINT;
        let is_small = code == codes::SMALL_UINT;
        let is_zero = code == codes::UINT0;
        let wide = Self::of_data(&bytes[1..5]);
        let small = bytes[1] as u32 * is_small as u32;
        let number = if is_wide { wide } else { small };
        let (len, next) = behind_form(4, is_wide, is_small, is_zero, bytes);
        (number, len, next)
    }
}

impl Wide<8> for u64 {
    ghost widest = { Ulong };

    #[inline(always)]
    fn is_under(code: EncodingCodes) -> bool {
        match code {
            EncodingCodes::Ulong => true,
            _ => false,
        }
    }

    #[inline(always)]
    fn of_data(bytes: &[u8]) -> u64 {
        match bytes.first_chunk::<8>() {
            Some(data) => u64::from_be_bytes(*data),
            None => 0,
        }
    }

    #[inline(always)]
    fn at_front(bytes: &[u8]) -> (u64, usize) {
        match bytes[0] {
            codes::ULONG0 => (0, 1),
            codes::SMALL_ULONG if bytes.len() >= 2 => (bytes[1] as u64, 2),
            codes::ULONG if bytes.len() >= 9 => (Self::of_data(&bytes[1..9]), 9),
            _ => (0, 0),
        }
    }

    #[inline(always)]
    fn with_next(code: u8, bytes: &[u8]) -> (u64, usize, u8) {
        let is_wide = code == codes::ULONG;
        let is_small = code == codes::SMALL_ULONG;
        let is_zero = code == codes::ULONG0;
        let wide = Self::of_data(&bytes[1..9]);
        let small = bytes[1] as u64 * is_small as u64;
        let number = if is_wide { wide } else { small };
        let (len, next) = behind_form(8, is_wide, is_small, is_zero, bytes);
        (number, len, next)
    }
}

/// How many bytes the elements may still take, as far as a usize counts.
#[inline(always)]
fn bytes_left(consumed: usize, limit: &Option<Limit>) -> usize
    ensures { (n : ℕ) → 0 < n → n ≤ result → Within (limit_of limit.now) (consumed + n) }
{
    match limit {
        None => usize::MAX,
        Some(limit) => {
            let so_far = consumed.saturating_sub(limit.start);
            (limit.room as usize).saturating_sub(so_far)
        }
    }
}

/// Puts the numbers that the data are behind the others, for which there is room.
#[inline(always)]
fn push_all<T: Wide<W>, const W: usize>(bytes: &[u8], many: usize, items: &mut Vec<T>)
    requires width { (W ≡ 4) ⊎ (W ≡ 8) }
    requires whole { length bytes.now ≡ many * W }
    requires room { vec_len items.old + many ≤ vec_capacity items.old }
    ensures { PutBehind T.meaning (under T.widest) bytes.now many items.old.items items.new.items }
{
    for k in 0..many {
        items.push_reserved(T::of_data(&bytes[k * W..k * W + W]));
    }
}

/// Puts the numbers that stand at the front of the bytes, each with its own constructor, behind the
/// others, as long as there are such, so many at most, for which there is room: how many they are,
/// and how many bytes.
#[inline(never)]
fn push_numbers<T: Wide<W>, const W: usize>(
    bytes: &[u8],
    most: usize,
    items: &mut Vec<T>,
) -> (usize, usize)
    requires width { (W ≡ 4) ⊎ (W ≡ 8) }
    requires room { vec_len items.old + most ≤ vec_capacity items.old }
    ensures few { result.0 ≤ most }
    ensures within { result.1 ≤ length bytes.now }
    ensures put { PutBehind T.meaning bare (take result.1 bytes.now) result.0
        items.old.items items.new.items }
{
    let (mut many, mut at) = push_looking_ahead(bytes, most, items);
    while many < most && at < bytes.len() {
        let (number, len) = T::at_front(&bytes[at..]);
        if len == 0 {
            break;
        }
        items.push_reserved(number);
        many += 1;
        at += len;
    }
    (many, at)
}

/// The same as long as a byte stands behind the longest form of the next number. What comes behind
/// each form is looked at before the number's own form is known, so that no constructor waits for
/// the number before it.
#[inline(always)]
fn push_looking_ahead<T: Wide<W>, const W: usize>(
    bytes: &[u8],
    most: usize,
    items: &mut Vec<T>,
) -> (usize, usize)
    requires width { (W ≡ 4) ⊎ (W ≡ 8) }
    requires room { vec_len items.old + most ≤ vec_capacity items.old }
    ensures few { result.0 ≤ most }
    ensures within { result.1 ≤ length bytes.now }
    ensures put { PutBehind T.meaning bare (take result.1 bytes.now) result.0
        items.old.items items.new.items }
    ensures so_many { vec_len items.new ≡ vec_len items.old + result.0 }
    ensures room { vec_capacity items.new ≡ vec_capacity items.old }
{
    let mut many = 0;
    let mut at = 0;
    let mut code = match bytes.first() {
        Some(code) => *code,
        None => return (0, 0),
    };
    while many < most && bytes.len() - at > W + 1 {
        let (number, len, next) = T::with_next(code, &bytes[at..]);
        if len == 0 {
            break;
        }
        items.push_reserved(number);
        many += 1;
        at += len;
        code = next;
    }
    (many, at)
}

impl Many for i32 {
    #[inline(always)]
    fn push_front(
        alloc: Global,
        bytes: &[u8],
        most: usize,
        items: &mut Vec<i32>,
    ) -> (usize, usize) {
        let _ = alloc;
        push_numbers::<i32, 4>(bytes, most, items)
    }
}

impl Many for u32 {
    #[inline(always)]
    fn push_front(
        alloc: Global,
        bytes: &[u8],
        most: usize,
        items: &mut Vec<u32>,
    ) -> (usize, usize) {
        let _ = alloc;
        push_numbers::<u32, 4>(bytes, most, items)
    }
}

impl Many for u64 {
    #[inline(always)]
    fn push_front(
        alloc: Global,
        bytes: &[u8],
        most: usize,
        items: &mut Vec<u64>,
    ) -> (usize, usize) {
        let _ = alloc;
        push_numbers::<u64, 8>(bytes, most, items)
    }
}

impl<R: Read> Deserializer<R> {
    /// Reads some of the next elements, which are numbers, where they are at hand, and puts them
    /// behind the others: whether there were such.
    ///
    /// `OutOfMemory`: there is no memory for one of them.
    #[inline(always)]
    pub(crate) fn next_numbers<T: Many + Wide<W>, const W: usize>(
        &mut self,
        alloc: Global,
        inner: &mut Open,
        items: &mut Vec<T>,
    ) -> Result<bool, Error>
        requires { (W ≡ 4) ⊎ (W ≡ 8) }
        ensures { ReadsMany T.meaning (at_open self.old inner.old) items.old.items result
            (at_open self.new inner.new) items.new.items }
    {
        if inner.left > 0 && !self.ended && self.is_under::<T, W>() {
            return self.next_data::<T, W>(inner, items);
        }
        self.next_plain(alloc, inner, items)
    }

    /// Whether the next elements stand under the widest code of these numbers.
    #[inline(always)]
    fn is_under<T: Wide<W>, const W: usize>(&self) -> bool
        ensures { IsTrue result → self.now.inherited ≡ under T.widest }
    {
        match &self.inherited {
            Constructor::Under(code) => T::is_under(*code),
            _ => false,
        }
    }

    /// Elements of an array under the widest code of these numbers.
    #[inline(always)]
    fn next_data<T: Wide<W>, const W: usize>(
        &mut self,
        inner: &mut Open,
        items: &mut Vec<T>,
    ) -> Result<bool, Error>
        requires width { (W ≡ 4) ⊎ (W ≡ 8) }
        requires answers { self.old.ended ≡ false }
        requires code { self.old.inherited ≡ under T.widest }
        ensures { ReadsMany T.meaning (at_open self.old inner.old) items.old.items result
            (at_open self.new inner.new) items.new.items }
    {
        let left = bytes_left(self.reader.bytes_consumed(), &inner.limit);
        let bytes = self.reader.bytes_at_hand();
        let many = (inner.left as usize).min(left.min(bytes.len()) / W);
        if many == 0 {
            return Ok(false);
        }
        if items.reserve(many).is_err() {
            return Err(Error::OutOfMemory);
        }
        let before = items.len();
        push_all::<T, W>(&bytes[..many * W], many, items);
        if !self.reader.pass_at_hand(many * W) {
            items.truncate(before);
            return Ok(false);
        }
        self.described = false;
        self.begun.ticks(many);
        inner.left -= many as u32;
        Ok(true)
    }
}
