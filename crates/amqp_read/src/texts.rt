//! Bytes that are a text.

ghost use Rattle.std.specs.Prelude.{◌≡◌, ◌⊎◌, ◌+◌, ◌<◌, ◌≤◌};
ghost use Rattle.std.specs.Prelude.{false, length, IfOk, IfErr, IsTrue, string_bytes};
ghost use Rattle.std.specs.List.{AllWithin};
ghost use Rattle.std.specs.Str.{IsAscii, IsUtf8};
ghost use Rattle.amqp_base.specs.declared.error.Error.TheVariants.{OutOfMemory};
ghost use Rattle.amqp_read.specs.Texts.{NotText};

use amqp_base::Error;
use std::alloc::Global;
use std::simd::prelude::*;

/// Whether the `N` bytes from an index on are ASCII.
#[inline(always)]
fn block_is_ascii<const N: usize>(bytes: &[u8], at: usize) -> bool
    requires room { at + N ≤ length bytes.now }
    requires lanes { N ≤ 64 }
    ensures { IsTrue result → AllWithin (λ byte. byte < 128) bytes.now at (at + N) }
{
    let block = Simd::<u8, N>::from_slice(&bytes[at..]);
    block.simd_ge(Simd::splat(0x80)).to_bitmask() == 0
}

/// Whether all bytes are ASCII. The last block may overlap the one before it.
#[inline(always)]
fn blocks_are_ascii<const N: usize>(bytes: &[u8]) -> bool
    requires room { N ≤ length bytes.now }
    requires lanes { (0 < N) × (N ≤ 64) }
    ensures { IsTrue result → IsAscii bytes.now }
{
    let mut at = 0;
    while bytes.len() - at > N {
        if !block_is_ascii::<N>(bytes, at) {
            return false;
        }
        at += N;
    }
    block_is_ascii::<N>(bytes, bytes.len() - N)
}

/// Whether all bytes are ASCII; those of 4 to 128 bytes are one block or two.
#[inline(always)]
fn is_ascii(bytes: &[u8]) -> bool
    ensures { IsTrue result → IsAscii bytes.now }
{
    match bytes.len() {
        0 => true,
        1..=3 => blocks_are_ascii::<1>(bytes),
        4..=7 => blocks_are_ascii::<4>(bytes),
        8..=15 => blocks_are_ascii::<8>(bytes),
        16..=31 => blocks_are_ascii::<16>(bytes),
        32..=63 => blocks_are_ascii::<32>(bytes),
        _ => blocks_are_ascii::<64>(bytes),
    }
}

/// Whether the bytes are UTF-8. Most texts are ASCII, which takes few steps to see.
pub(crate) fn is_text(bytes: &[u8]) -> bool
    ensures text { IsTrue result → IsUtf8 bytes.now }
    ensures no_text { result ≡ false → (IsUtf8 bytes.now → ⊥) }
{
    is_ascii(bytes) || std::str::from_utf8(bytes).is_ok()
}

/// A copy of the bytes, as a text.
pub(crate) fn text_of(alloc: Global, bytes: &[u8]) -> Result<String, Error>
    ensures ok { IfOk result (λ t. string_bytes t ≡ bytes.now) }
    ensures why { IfErr result (λ e. NotText bytes.now e ⊎ (e ≡ OutOfMemory)) }
{
    if !is_text(bytes) {
        return Err(Error::InvalidUtf8Encoding);
    }
    match String::from_str(alloc, unsafe { std::str::from_utf8_unchecked(bytes) }) {
        Ok(text) => return Ok(text),
        Err(_) => return Err(Error::OutOfMemory),
    }
}
