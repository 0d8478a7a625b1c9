//! The descriptor of a described value that is looked at: all of its bytes stay.

ghost use Rattle.std.specs.Prelude.{◌≡◌, ◌⊎◌, ◌+◌, ◌≤◌, ◌<◌};
ghost use Rattle.std.specs.Prelude.{IfOk, IfErr, string_bytes};
ghost use Rattle.amqp_base.specs.declared.error.Error.TheVariants.{InvalidFormatCode};
ghost use Rattle.amqp_base.specs.Parse.{behind_byte, descriptor_at, descriptor_data, text_at};
ghost use Rattle.amqp_data.specs.Ahead.{NumberAhead, TextAhead, DataAhead, ShowsDescriptor};
ghost use Rattle.amqp_data.specs.Ahead.{Unseen, RejectsAhead};
ghost use Rattle.amqp_types.specs.Descriptors.{descriptor_of};

use amqp_base::{Error, codes};
use amqp_read::Read;
use amqp_types::{Descriptor, Symbol};
use std::alloc::Global;
use std::io::ErrorKind;

/// Where the code of a descriptor stands: behind 0x00.
const CODE: usize = 1;

/// Where its data stand.
const DATA: usize = 2;

/// The number that `width` bytes behind the next `from` are.
fn number_ahead<R: Read>(reader: &mut R, from: usize, width: usize) -> Result<u64, Error>
    requires near { from ≤ 8 }
    requires some { 0 < width }
    requires fits { width ≤ 8 }
    ensures ok { IfOk result (λ k.
        NumberAhead from width k (R.reading reader.old) (R.reading reader.new)) }
    ensures err { IfErr result (λ e. Unseen R.buffers R.buffers (from + width)
        (R.reading reader.old) (R.reading reader.new) e) }
{
    let mut number: u64 = 0;
    for i in 0..width {
        match reader.peek_at(from + i) {
            Ok(Some(byte)) => number = number * 256 + byte as u64,
            Ok(None) => return Err(Error::Io(ErrorKind::UnexpectedEof)),
            Err(e) => return Err(e),
        }
    }
    Ok(number)
}

/// A length of so many bytes behind the next `from`, and the text behind it.
fn text_ahead<R: Read>(
    alloc: Global,
    reader: &mut R,
    from: usize,
    width: usize,
) -> Result<String, Error>
    requires near { from ≤ 8 }
    requires wide { (width ≡ 1) ⊎ (width ≡ 4) }
    ensures ok { IfOk result (λ t. TextAhead from width (string_bytes t) (R.reading reader.old)
        (R.reading reader.new)) }
    ensures err { IfErr result (λ e. RejectsAhead from R.buffers (text_at width)
        (R.reading reader.old) (R.reading reader.new) e) }
{
    match number_ahead(reader, from, width) {
        Ok(len) => match reader.peek_copied(alloc, from + width, len as usize) {
            Ok(bytes) => match String::from_utf8(bytes) {
                Ok(text) => Ok(text),
                Err(_) => Err(Error::InvalidUtf8Encoding),
            },
            Err(e) => Err(e),
        },
        Err(e) => Err(e),
    }
}

/// A symbol whose length has so many bytes.
fn symbol_ahead<R: Read>(
    alloc: Global,
    reader: &mut R,
    code: u8,
    width: usize,
) -> Result<Descriptor, Error>
    requires { ((code ≡ 0xa3) × (width ≡ 1)) ⊎ ((code ≡ 0xb3) × (width ≡ 4)) }
    ensures ok { IfOk result (λ d. DataAhead 2 code (descriptor_of d) (R.reading reader.old)
        (R.reading reader.new)) }
    ensures err { IfErr result (λ e.
        RejectsAhead 2 R.buffers (behind_byte (descriptor_data InvalidFormatCode) code)
        (R.reading reader.old) (R.reading reader.new) e) }
{
    match text_ahead(alloc, reader, DATA, width) {
        Ok(text) => Ok(Descriptor::Name(Symbol(text))),
        Err(e) => Err(e),
    }
}

/// An ulong of so many bytes.
fn ulong_ahead<R: Read>(reader: &mut R, code: u8, width: usize) -> Result<Descriptor, Error>
    requires { ((code ≡ 0x80) × (width ≡ 8)) ⊎ ((code ≡ 0x53) × (width ≡ 1)) }
    ensures ok { IfOk result (λ d. DataAhead 2 code (descriptor_of d) (R.reading reader.old)
        (R.reading reader.new)) }
    ensures err { IfErr result (λ e.
        RejectsAhead 2 R.buffers (behind_byte (descriptor_data InvalidFormatCode) code)
        (R.reading reader.old) (R.reading reader.new) e) }
{
    match number_ahead(reader, DATA, width) {
        Ok(number) => Ok(Descriptor::Code(number)),
        Err(e) => Err(e),
    }
}

/// A descriptor's data, given the byte of its code.
fn data_ahead<R: Read>(alloc: Global, reader: &mut R, code: u8) -> Result<Descriptor, Error>
    ensures ok { IfOk result (λ d. DataAhead 2 code (descriptor_of d) (R.reading reader.old)
        (R.reading reader.new)) }
    ensures err { IfErr result (λ e.
        RejectsAhead 2 R.buffers (behind_byte (descriptor_data InvalidFormatCode) code)
        (R.reading reader.old) (R.reading reader.new) e) }
{
    match code {
        codes::SYM8 => symbol_ahead(alloc, reader, code, 1),
        codes::SYM32 => symbol_ahead(alloc, reader, code, 4),
        codes::ULONG => ulong_ahead(reader, code, 8),
        codes::SMALL_ULONG => ulong_ahead(reader, code, 1),
        codes::ULONG0 => Ok(Descriptor::Code(0)),
        _ => Err(Error::InvalidFormatCode),
    }
}

/// The descriptor of a described value (part 1, section 1.2) whose 0x00 is the next byte: a symbol
/// or an ulong. All bytes stay, and none behind the descriptor is received.
///
/// `Io(UnexpectedEof)` where bytes of it are missing, `InvalidFormatCode` where its code is none or
/// another kind's, `InvalidUtf8Encoding` where it is a symbol that isn't UTF-8. `OutOfMemory`:
/// there is no memory for a symbol.
pub fn descriptor_ahead<R: Read>(alloc: Global, reader: &mut R) -> Result<Descriptor, Error>
    ensures ok { IfOk result (λ d. ShowsDescriptor 1 (descriptor_of d) (R.reading reader.old)
        (R.reading reader.new)) }
    ensures err { IfErr result (λ e.
        RejectsAhead 1 R.buffers (descriptor_at InvalidFormatCode) (R.reading reader.old)
        (R.reading reader.new) e) }
{
    match reader.peek_at(CODE) {
        Ok(Some(code)) => match data_ahead(alloc, reader, code) {
            Ok(descriptor) => Ok(descriptor),
            Err(e) => Err(e),
        },
        Ok(None) => Err(Error::Io(ErrorKind::UnexpectedEof)),
        Err(e) => Err(e),
    }
}
