//! Numbers, texts and bytes as they are written on a line.
ghost use Rattle.std.specs.Prelude.{◌≡◌, ◌<◌, length, Some, None, if◌then◌else◌, IfSome, IfNone, IfOk, IfErr, IsTrue, MatchOption, string_bytes};
ghost use Rattle.std.specs.Char.{digit_value, is_digit};
ghost use Rattle.std.specs.Str.Parse.{digits_value};
ghost use Rattle.lines.specs.Atoms.{IsNumber, IsAtom, IsText, Spells, escaped, first_char, first_hex, hex_byte};
ghost use Rattle.lines.specs.Readings.{Blames};
ghost use Rattle.lines.specs.Words.{IsNumberOf};

use crate::pieces::between;
use bytes::Bytes;
use memchr::memchr2;
use plain::{Fault, Text};
use std::alloc::Global;

/// The number of decimal digits.
pub fn number_of(text: &[u8]) -> Option<u64>
    ensures digits { IfSome result (λ _. IsNumber text.now) }
    ensures value { IfSome result (λ number. number ≡ digits_value 10 text.now) }
    ensures none { IfNone result (IsNumber text.now → ⊥) }
{
    if text.is_empty() {
        return None;
    }
    let mut number = 0u64;
    for &byte in text {
        let digit = char::from(byte).to_digit(10)?;
        number = number.checked_mul(10)?.checked_add(u64::from(digit))?;
    }
    Some(number)
}

/// The value of a hex digit, in either case. Most are below ten, so that is asked first.
fn hex_value(digit: u8) -> Option<u8>
    ensures { result ≡ (if is_digit digit 16 then Some (digit_value digit) else None) }
{
    let number = digit.wrapping_sub(b'0');
    if number < 10 {
        return Some(number);
    }
    match digit {
        b'a'..=b'f' => Some(digit - b'a' + 10),
        b'A'..=b'F' => Some(digit - b'A' + 10),
        _ => None,
    }
}

/// The byte of two hex digits.
#[tactic(auto, unfolding(crate::specs::Atoms::hex_byte))]
fn hex_byte(high: u8, low: u8) -> Option<u8>
    ensures { result ≡ hex_byte high low }
{
    Some(hex_value(high)? * 16 + hex_value(low)?)
}

/// The byte of the first two hex digits, and what follows.
fn first_hex(text: &[u8]) -> Option<(u8, &[u8])>
    ensures value { MatchOption result (first_hex text.now ≡ None) (λ found. first_hex text.now
        ≡ Some (found.0, found.1.now)) }
    ensures shorter { IfSome result (λ found. length found.1.now < length text.now) }
{
    match text {
        [high, low, rest @ ..] => Some((hex_byte(*high, *low)?, rest)),
        _ => None,
    }
}

/// The byte of an escape after its backslash, and what follows.
#[tactic(auto, unfolding(crate::specs::Atoms::escaped))]
fn escape_of(text: &[u8]) -> Option<(u8, &[u8])>
    ensures value { MatchOption result (escaped text.now ≡ None) (λ found. escaped text.now
        ≡ Some (found.0, found.1.now)) }
    ensures shorter { IfSome result (λ found. length found.1.now < length text.now) }
{
    match text {
        [b'"', rest @ ..] => Some((b'"', rest)),
        [b'\\', rest @ ..] => Some((b'\\', rest)),
        [b'x', digits @ ..] => first_hex(digits),
        _ => None,
    }
}

/// The byte of the first character between quotes, or of the first escape, and what follows.
#[tactic(auto, unfolding(crate::specs::Atoms::first_char))]
fn first_byte(text: &[u8]) -> Option<(u8, &[u8])>
    ensures value { MatchOption result (first_char text.now ≡ None) (λ found. first_char text.now
        ≡ Some (found.0, found.1.now)) }
    ensures shorter { IfSome result (λ found. length found.1.now < length text.now) }
{
    match text {
        [] => None,
        [b'"', ..] => None,
        [b'\\', rest @ ..] => escape_of(rest),
        [byte, rest @ ..] => Some((*byte, rest)),
    }
}

/// The bytes of hex digits, two a byte.
fn bytes_of_hex(alloc: Global, digits: &[u8]) -> Result<Vec<u8>, Fault>
    ensures bytes { IfOk result (λ bytes. Spells first_hex digits.now bytes.items) }
    ensures none { IfErr result (Blames (Spells first_hex digits.now)) }
{
    let mut bytes = Vec::with_capacity(alloc, digits.len() / 2)?;
    let mut rest = digits;
    while !rest.is_empty() {
        let Some((byte, behind)) = first_hex(rest) else {
            return Err(Fault::Malformed);
        };
        bytes.push(byte)?;
        rest = behind;
    }
    Ok(bytes)
}

/// Whether all characters between quotes stand for themselves. That is so if there is no escape.
#[tactic(auto, using(crate::proofs::Spelling::all_stand_for_themselves))]
fn is_verbatim(text: &[u8]) -> bool
    ensures { IsTrue result → Spells first_char text.now text.now }
{
    memchr2(b'"', b'\\', text).is_none()
}

/// The bytes that stand between quotes.
fn bytes_of_quoted(alloc: Global, text: &[u8]) -> Result<Vec<u8>, Fault>
    ensures bytes { IfOk result (λ bytes. Spells first_char text.now bytes.items) }
    ensures none { IfErr result (Blames (Spells first_char text.now)) }
{
    if is_verbatim(text) {
        return Ok(text.to_vec(alloc)?);
    }
    let mut bytes = Vec::with_capacity(alloc, text.len())?;
    let mut rest = text;
    while !rest.is_empty() {
        let Some((byte, behind)) = first_byte(rest) else {
            return Err(Fault::Malformed);
        };
        bytes.push(byte)?;
        rest = behind;
    }
    Ok(bytes)
}

/// The bytes of an atom: in quotes, or as hex digits.
pub fn bytes_of(alloc: Global, text: &[u8]) -> Result<Vec<u8>, Fault>
    ensures bytes { IfOk result (λ bytes. IsAtom text.now bytes.items) }
    ensures none { IfErr result (Blames (IsAtom text.now)) }
{
    if let [b'0', b'x', digits @ ..] = text {
        return bytes_of_hex(alloc, digits);
    }
    bytes_of_quoted(alloc, between(text, b'"', b'"')?)
}

/// The bytes of an atom, shared.
pub fn shared_of(alloc: Global, text: &[u8]) -> Result<Bytes, Fault>
    ensures value { IfOk result (IsAtom text.now) }
    ensures none { IfErr result (Blames (IsAtom text.now)) }
{
    Ok(Bytes::from_vec(bytes_of(alloc, text)?)?)
}

/// The text of an atom.
#[tactic(auto, using(crate::proofs::Blaming::no_atom, crate::proofs::Blaming::not_text))]
pub fn string_of(alloc: Global, text: &[u8]) -> Result<String, Fault>
    ensures value { IfOk result (λ string. IsText text.now (string_bytes string)) }
    ensures none { IfErr result (Blames (IsText text.now)) }
{
    match String::from_utf8(bytes_of(alloc, text)?) {
        Ok(text) => Ok(text),
        Err(_) => Err(Fault::Malformed),
    }
}

/// The text of an atom, as a value.
pub fn text_of(alloc: Global, text: &[u8]) -> Result<Text, Fault>
    ensures value { IfOk result (IsText text.now) }
    ensures none { IfErr result (Blames (IsText text.now)) }
{
    Ok(Text::from_string(string_of(alloc, text)?))
}

/// The number of decimal digits, if it fits sixteen bits.
pub fn u16_of(text: &[u8]) -> Result<u16, Fault>
    ensures value { IfOk result (IsNumberOf 16 text.now) }
    ensures none { IfErr result (Blames (IsNumberOf 16 text.now)) }
{
    let number = number_of(text).ok_or(Fault::Malformed)?;
    u16::try_from(number).map_err(|_| Fault::Malformed)
}

/// The number of decimal digits, if it fits thirty-two bits.
pub fn u32_of(text: &[u8]) -> Result<u32, Fault>
    ensures value { IfOk result (IsNumberOf 32 text.now) }
    ensures none { IfErr result (Blames (IsNumberOf 32 text.now)) }
{
    let number = number_of(text).ok_or(Fault::Malformed)?;
    u32::try_from(number).map_err(|_| Fault::Malformed)
}

/// The number of decimal digits, if it fits sixty-four bits.
pub fn u64_of(text: &[u8]) -> Result<u64, Fault>
    ensures value { IfOk result (IsNumberOf 64 text.now) }
    ensures none { IfErr result (Blames (IsNumberOf 64 text.now)) }
{
    number_of(text).ok_or(Fault::Malformed)
}
