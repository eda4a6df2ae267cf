// Escapes: `\` and what follows it, outside a class and inside one.
ghost use Rattle.std.specs.Prelude.{◌≡◌, ◌||◌, ◌<◌, eqb, length};
ghost use Rattle.sets.specs.Sets.{is_digit};
ghost use Rattle.reading_atoms.specs.Escapes.{letter_escape, hex_escape, zero_escape, other_escape};
ghost use Rattle.reading_atoms.specs.Escapes.{escape_at};
ghost use Rattle.reading_atoms.specs.Answers.{control_in, set_in, escape_of};

use crate::chars::{byte_at, hex_value, is_digit, is_hex, is_letter, is_word};
use meaning::refusals::Refusal;

// What an escape says: a byte, with the place behind it; a set or an assertion, by its number: the index of the
// set in the outline's array of sets, and the word of the assertion in the table.
#[derive(Clone, Copy, Debug, PartialEq, Eq)]
pub enum Escape {
    Byte(u8, usize),
    Named(usize),
    Assertion(u32),
}

// \f \n \r \t \v, and the bytes they stand for.
fn control(b: u8) -> Option<u8>
    ensures { result ≡ control_in b }
{
    match b {
        b'f' => Some(0x0C),
        b'n' => Some(0x0A),
        b'r' => Some(0x0D),
        b't' => Some(0x09),
        b'v' => Some(0x0B),
        _ => None,
    }
}

// \d \D \w \W \s \S by their number from 0.
fn set_number(b: u8) -> Option<usize>
    ensures { result ≡ set_in b }
{
    match b {
        b'd' => Some(0),
        b'D' => Some(1),
        b'w' => Some(2),
        b'W' => Some(3),
        b's' => Some(4),
        b'S' => Some(5),
        _ => None,
    }
}

// `\c` and a letter: the letter mod 32. The `\` stands within the pattern, here and below, so that the places behind it fit.
fn letter_escape(s: &[u8], at: usize) -> Result<Escape, Refusal>
    requires { at < length s.now }
    ensures { escape_of result ≡ letter_escape s.now at }
{
    match byte_at(s, at + 2) {
        Some(letter) if is_letter(letter) => Ok(Escape::Byte(letter % 32, at + 3)),
        _ => Err(Refusal::BadEscape),
    }
}

// `\x` and two hex digits.
#[tactic(auto, unfolding(sets::specs::Sets::is_digit))]
fn hex_escape(s: &[u8], at: usize) -> Result<Escape, Refusal>
    requires { at < length s.now }
    ensures { escape_of result ≡ hex_escape s.now at }
{
    let (Some(high), Some(low)) = (byte_at(s, at + 2), byte_at(s, at + 3)) else {
        return Err(Refusal::BadEscape);
    };
    if !is_hex(high) || !is_hex(low) {
        return Err(Refusal::BadEscape);
    }
    Ok(Escape::Byte(hex_value(high) * 16 + hex_value(low), at + 4))
}

// `\0` before no digit.
#[tactic(auto, unfolding(sets::specs::Sets::is_digit))]
fn zero_escape(s: &[u8], at: usize) -> Result<Escape, Refusal>
    requires { at < length s.now }
    ensures { escape_of result ≡ zero_escape s.now at }
{
    match byte_at(s, at + 2) {
        Some(b) if is_digit(b) => Err(Refusal::BadEscape),
        _ => Ok(Escape::Byte(0, at + 2)),
    }
}

// What refers back to a group: `\1` to `\9` and `\k`; `\0` was read before.
fn refers_back(b: u8) -> bool
    ensures { result ≡ (is_digit b || eqb b 0x6B) }
{
    is_digit(b) || b == b'k'
}

// Not listed: outside a class `\1` to `\9` and `\k` are left out; other letters, digits and `_` are wrong; the rest is itself.
// `in_class` is where the escape stands, here and below.
fn other_escape(in_class: bool, b: u8, end: usize) -> Result<Escape, Refusal>
    ensures { escape_of result ≡ other_escape in_class b end }
{
    if refers_back(b) {
        return Err(if in_class {
            Refusal::BadEscape
        } else {
            Refusal::LeftOut
        });
    }
    if is_word(b) {
        return Err(Refusal::BadEscape);
    }
    Ok(Escape::Byte(b, end))
}

// The escape whose `\` stands at a place, which its callers have seen. `\b` is 08 in a class and `\B` is not listed there.
#[tactic(auto, unfolding(crate::specs::Escapes::escape_at, sets::specs::Sets::is_digit, sets::specs::Sets::is_word))]
pub fn escape_at(in_class: bool, s: &[u8], at: usize) -> Result<Escape, Refusal>
    requires { at < length s.now }
    ensures { escape_of result ≡ escape_at in_class s.now at }
{
    let Some(b) = byte_at(s, at + 1) else {
        return Err(Refusal::BadEscape);
    };
    if let Some(set) = set_number(b) {
        return Ok(Escape::Named(set));
    }
    if let Some(byte) = control(b) {
        return Ok(Escape::Byte(byte, at + 2));
    }
    match b {
        b'c' => letter_escape(s, at),
        b'x' => hex_escape(s, at),
        b'0' => zero_escape(s, at),
        b'b' if in_class => Ok(Escape::Byte(0x08, at + 2)),
        b'b' => Ok(Escape::Assertion(2)),
        b'B' if in_class => Err(Refusal::BadEscape),
        b'B' => Ok(Escape::Assertion(3)),
        b'u' => Err(Refusal::LeftOut),
        _ => other_escape(in_class, b, at + 2),
    }
}
