//! The primitive types' own calls.

use super::answer::{Answer, gave, told};
use amqp_base::Error;
use amqp_types::{
    Binary, BinaryRef, Dec32, Dec64, Dec128, Double, Float, Symbol, SymbolRef, Timestamp, Uuid,
};
use std::alloc::Global;
use std::convert::TryFrom;

/// A float is its bits, so that minus zero isn't zero.
fn float_is_its_bits() -> bool {
    let minus_zero = Float::from_bits(0x8000_0000);
    let is_kept = minus_zero.to_bits() == 0x8000_0000;
    minus_zero != Float::from_bits(0) && is_kept
}

/// A double is its bits, so that what is no number is itself.
fn double_is_its_bits() -> bool {
    let not_a_number = Double::from_bits(0x7ff8_0000_0000_0001);
    let is_kept = not_a_number.to_bits() == 0x7ff8_0000_0000_0001;
    not_a_number == Double::from_bits(0x7ff8_0000_0000_0001) && is_kept
}

/// A timestamp counts milliseconds, also those before the first one.
fn timestamp_counts_milliseconds() -> bool {
    let before = Timestamp::from_milliseconds(-1);
    let is_kept = before.milliseconds() == -1;
    let is_before = before < Timestamp::from(0);
    before.into_inner() == -1 && is_kept && is_before
}

#[test]
fn floats_are_their_bits_and_timestamps_count_milliseconds(rt: HostRuntime) {
    assert!(rt; float_is_its_bits());
    assert!(rt; double_is_its_bits());
    assert!(rt; timestamp_counts_milliseconds());
}

/// The value is taken from the bytes, and none from the others, which have another width.
fn is_of_width<'b, T>(bytes: &'b [u8], value: &T, others: &'b [u8]) -> bool
where
    T: TryFrom<&'b [u8], Error = Error> + PartialEq + Drop,
{
    let is_taken = gave(T::try_from(bytes), value);
    told(T::try_from(others)) == Answer::InvalidLength && is_taken
}

/// Decimals of four bytes order as these do.
fn dec32_has_an_order(low: &Dec32, high: &Dec32) -> bool {
    low < high
}

/// A decimal32 has these bytes.
fn dec32_has(value: Dec32, bytes: [u8; 4]) -> bool {
    let has_them = value.as_inner() == &bytes;
    value.into_inner() == bytes && has_them
}

/// A decimal64 is its eight bytes, also cloned.
fn dec64_has(value: Dec64, bytes: [u8; 8]) -> bool {
    let again: Result<_, _> = value.clone();
    let is_cloned = matches!(&again, Ok(again) if *again == value);
    let own: [u8; 8] = value.into();
    is_cloned && own == bytes
}

/// Other bytes can be put in the place of a uuid's.
fn uuid_takes(uuid: Uuid, bytes: [u8; 16]) -> bool {
    let mut uuid = uuid;
    *uuid.as_inner_mut() = bytes;
    let has_them = uuid.as_inner() == &bytes;
    uuid.into_inner() == bytes && has_them
}

/// Uuids are their bytes, and order as these do.
fn uuids_have_an_order(low: [u8; 16], high: [u8; 16]) -> bool {
    let bytes: [u8; 16] = Uuid::from(high).into();
    Uuid::from(bytes) > Uuid::from(low)
}

#[test]
fn decimals_are_their_bytes(rt: HostRuntime) {
    let high = Dec32::from([1, 2, 3, 5]);
    assert!(rt; dec32_has_an_order(&Dec32::from([1, 2, 3, 4]), &high));
    assert!(rt; is_of_width(&[1, 2, 3, 5], &high, &[1, 2, 3]));
    assert!(rt; dec32_has(Dec32::from([1, 2, 3, 4]), [1, 2, 3, 4]));
    assert!(rt; is_of_width(&[9; 8], &Dec64::from([9; 8]), &[0; 9]));
    assert!(rt; dec64_has(Dec64::from([9; 8]), [9; 8]));
}

#[test]
fn wide_decimals_and_uuids_are_their_bytes(rt: HostRuntime) {
    assert!(rt; is_of_width(&[7; 16], &Dec128::from([7; 16]), &[0; 15]));
    assert!(rt; Dec128::from([7; 16]).into_inner() == [7; 16]);
    assert!(rt; is_of_width(&[5; 16], &Uuid::from([5; 16]), &[0; 17]));
    assert!(rt; uuid_takes(Uuid::from([5; 16]), [6; 16]));
    assert!(rt; uuids_have_an_order([5; 16], [6; 16]));
}

/// A binary has the bytes, also lent.
fn binary_has(binary: &Binary, bytes: &[u8]) -> bool {
    let has_them = binary.as_slice() == bytes;
    let has_length = binary.len() == bytes.len();
    let is_empty = binary.is_empty() == bytes.is_empty();
    BinaryRef::from(binary).0 == bytes && has_them && has_length && is_empty
}

/// A clone of the binary is equal to it, and has the bytes.
fn is_cloned(binary: &Binary, outcome: Result<Binary, Error>, bytes: &[u8]) -> bool {
    match outcome {
        Ok(again) => {
            let is_equal = again == *binary;
            again.into_vec().as_slice() == bytes && is_equal
        }
        Err(_) => false,
    }
}

/// The binary has the bytes, as has its clone.
fn binary_is(alloc: Global, binary: Binary, bytes: &[u8]) -> bool {
    let again = binary.clone(alloc);
    is_cloned(&binary, again, bytes) && binary_has(&binary, bytes)
}

/// A binary of the bytes is that.
fn is_binary(alloc: Global, bytes: &[u8]) -> bool {
    match bytes.to_vec(alloc) {
        Ok(own) => binary_is(alloc, Binary::from(own), bytes),
        Err(_) => false,
    }
}

/// The symbol has the text.
fn symbol_has(symbol: Symbol, text: &str) -> bool {
    let has_it = symbol.as_str() == text && symbol.len() == text.len();
    symbol.into_inner().as_str() == text && has_it
}

/// What is lent of the symbol has the text.
fn lent_has(lent: &SymbolRef<'_>, text: &str) -> bool {
    lent.as_str() == text && lent.as_str().len() == text.len()
}

/// The symbol has the text, also lent, cloned, and made again from what is lent.
fn symbol_is(alloc: Global, symbol: Symbol, text: &str) -> bool {
    let is_cloned = gave(symbol.clone(alloc), &symbol);
    let is_lent = lent_has(&SymbolRef::from(symbol.as_str()), text);
    let is_made = gave(
        Symbol::from_ref(alloc, SymbolRef::from(symbol.as_str())),
        &symbol,
    );
    symbol_has(symbol, text) && is_cloned && is_lent && is_made
}

/// A symbol of the text is that.
fn is_symbol(alloc: Global, text: &str) -> bool {
    match Symbol::from_str(alloc, text) {
        Ok(symbol) => symbol_is(alloc, symbol, text),
        Err(_) => false,
    }
}

/// With a letter more the symbol has this text.
fn grows(symbol: Symbol, letter: char, text: &str) -> bool {
    let mut symbol = symbol;
    symbol.push(letter).is_ok() && symbol_has(symbol, text)
}

/// A symbol of the text grows so.
fn is_longer(alloc: Global, text: &str, letter: char, longer: &str) -> bool {
    match Symbol::from_str(alloc, text) {
        Ok(symbol) => grows(symbol, letter, longer),
        Err(_) => false,
    }
}

/// A string of this text.
fn string(alloc: Global, text: &str) -> Option<String> {
    String::from_str(alloc, text).ok()
}

/// A symbol of the first text is before one of the second.
fn are_in_order(low: Option<String>, high: Option<String>) -> bool {
    match low {
        Some(low) => is_before(Symbol::new(low), high),
        None => false,
    }
}

/// The symbol is before one of the text.
fn is_before(low: Symbol, high: Option<String>) -> bool {
    match high {
        Some(high) => low < Symbol::from(high),
        None => false,
    }
}

#[test]
fn binaries_are_their_bytes_and_symbols_their_texts(rt: HostRuntime) {
    let alloc = rt.alloc();
    assert!(rt; is_binary(alloc, b"\x01\x02"));
    assert!(rt; Binary(Vec::new(alloc)).is_empty());
    assert!(rt; is_symbol(alloc, "amqp"));
    assert!(rt; is_symbol(alloc, "amqps"));
    assert!(rt; is_longer(alloc, "amqp", 's', "amqps"));
    assert!(rt; are_in_order(string(alloc, "a"), string(alloc, "b")));
}
