//! The data of an index or a name, which says which variant of an enum stands there.

ghost use Rattle.std.specs.Prelude.{◌≡◌, ◌⊎◌, true, IfOk, IfErr};
ghost use Rattle.amqp_base.specs.Identifiers.{key_data};
ghost use Rattle.amqp_base.specs.Item.{scalar};
ghost use Rattle.amqp_base.specs.Parse.{behind_byte};
ghost use Rattle.amqp_data.specs.Keys.{key_scalar};
ghost use Rattle.amqp_data.specs.Steps.{IsData, Rejects};

use crate::leaf::Leaf;
use crate::payloads::{AsString, AsSymbol};
use crate::unsigned::{AsUint, AsUlong};
use amqp_base::{Error, codes};
use amqp_read::Read;
use std::alloc::Global;

/// An index, which is a uint or an ulong, or a name, which is a string or a symbol.
#[derive(Drop)]
pub enum Key {
    Uint(u32),
    Ulong(u64),
    String(String),
    Symbol(String),
}

/// A uint's data.
#[inline(always)]
fn uint_key<R: Read>(reader: &mut R, code: u8) -> Result<Key, Error>
    requires { (code ≡ 0x70) ⊎ ((code ≡ 0x52) ⊎ (code ≡ 0x43)) }
    ensures ok { IfOk result (λ k. IsData code (scalar (key_scalar k)) (R.reading reader.old)
        (R.reading reader.new)) }
    ensures err { IfErr result (λ e. Rejects true R.buffers (behind_byte key_data code)
        (R.reading reader.old) (R.reading reader.new) e) }
{
    match AsUint.read(reader, code) {
        Ok(n) => Ok(Key::Uint(n)),
        Err(e) => Err(e),
    }
}

/// An ulong's data.
#[inline(always)]
fn ulong_key<R: Read>(reader: &mut R, code: u8) -> Result<Key, Error>
    requires { (code ≡ 0x80) ⊎ ((code ≡ 0x53) ⊎ (code ≡ 0x44)) }
    ensures ok { IfOk result (λ k. IsData code (scalar (key_scalar k)) (R.reading reader.old)
        (R.reading reader.new)) }
    ensures err { IfErr result (λ e. Rejects true R.buffers (behind_byte key_data code)
        (R.reading reader.old) (R.reading reader.new) e) }
{
    match AsUlong.read(reader, code) {
        Ok(n) => Ok(Key::Ulong(n)),
        Err(e) => Err(e),
    }
}

/// A string's data.
#[inline(always)]
fn string_key<R: Read>(alloc: Global, reader: &mut R, code: u8) -> Result<Key, Error>
    requires { (code ≡ 0xa1) ⊎ (code ≡ 0xb1) }
    ensures ok { IfOk result (λ k. IsData code (scalar (key_scalar k)) (R.reading reader.old)
        (R.reading reader.new)) }
    ensures err { IfErr result (λ e. Rejects true R.buffers (behind_byte key_data code)
        (R.reading reader.old) (R.reading reader.new) e) }
{
    match AsString(alloc).read(reader, code) {
        Ok(name) => Ok(Key::String(name)),
        Err(e) => Err(e),
    }
}

/// A symbol's data.
#[inline(always)]
fn symbol_key<R: Read>(alloc: Global, reader: &mut R, code: u8) -> Result<Key, Error>
    requires { (code ≡ 0xa3) ⊎ (code ≡ 0xb3) }
    ensures ok { IfOk result (λ k. IsData code (scalar (key_scalar k)) (R.reading reader.old)
        (R.reading reader.new)) }
    ensures err { IfErr result (λ e. Rejects true R.buffers (behind_byte key_data code)
        (R.reading reader.old) (R.reading reader.new) e) }
{
    match AsSymbol(alloc).read(reader, code) {
        Ok(name) => Ok(Key::Symbol(name)),
        Err(e) => Err(e),
    }
}

/// The data of an index or a name, given the byte of its code.
pub fn key_data<R: Read>(alloc: Global, reader: &mut R, code: u8) -> Result<Key, Error>
    ensures ok { IfOk result (λ k. IsData code (scalar (key_scalar k)) (R.reading reader.old)
        (R.reading reader.new)) }
    ensures err { IfErr result (λ e. Rejects true R.buffers (behind_byte key_data code)
        (R.reading reader.old) (R.reading reader.new) e) }
{
    match code {
        codes::UINT => uint_key(reader, code),
        codes::SMALL_UINT => uint_key(reader, code),
        codes::UINT0 => uint_key(reader, code),
        codes::ULONG => ulong_key(reader, code),
        codes::SMALL_ULONG => ulong_key(reader, code),
        codes::ULONG0 => ulong_key(reader, code),
        codes::STR8 => string_key(alloc, reader, code),
        codes::STR32 => string_key(alloc, reader, code),
        codes::SYM8 => symbol_key(alloc, reader, code),
        codes::SYM32 => symbol_key(alloc, reader, code),
        _ => Err(Error::InvalidFormatCode),
    }
}
