// Fields as numbers, and gates on them: `number 00 06` with two registers of two bytes, -1 among them; `at most -40.0`,
// `at least -40.0` and `between -50.0 -40.0` with limits of five bytes, which are no number if they are not written as one.
ghost use Rattle.std.specs.Prelude.{◌<◌};

use crate::answers::{say_number, say_refused};
use crate::questions::{byte_at, digit_at};
use millkettle::{Gate, Passing};
use std::io;

// A value's bits, and 0 for what is no number.
fn bits_of(value: f64) -> u64 {
    if value.is_nan() { 0 } else { value.to_bits() }
}

// The register that two bytes say.
fn register_at(line: &[u8], at: usize) -> i32
    requires { at < 100 }
{
    if byte_at(line, at) == b'-' {
        return -1;
    }
    10 * i32::from(digit_at(line, at)) + i32::from(digit_at(line, at + 1))
}

// A span of the text as a number.
pub fn number(rt: &impl Print, question: &[u8], text: &[u8]) -> io::Result<()> {
    match millkettle::read_field(text, register_at(question, 7), register_at(question, 10)) {
        Ok(reading) => {
            let bits = bits_of(reading.value);
            rt.write_all(b": bits ")?;
            print!(rt; "{bits:016x}")?;
            say_number(rt, b", decimals ", u64::from(reading.decimals))?;
        }
        Err(refused) => say_refused(rt, refused)?,
    }
    rt.write_all(b"\n")
}

// The limit that bytes of a question say.
fn limit_of(question: &[u8], start: i32, end: i32) -> f64 {
    match millkettle::read_field(question, start, end) {
        Ok(reading) => reading.value,
        Err(_) => f64::NAN,
    }
}

// The end of a text as a register.
fn end_of(text: &[u8]) -> i32 {
    i32::try_from(text.len()).unwrap_or(-1)
}

// Whether a gate passes the whole text.
pub fn gate(rt: &impl Print, question: &[u8], text: &[u8]) -> io::Result<()> {
    let gate = match byte_at(question, 3) {
        b'm' => Gate::AtMost(limit_of(question, 8, 13)),
        b'l' => Gate::AtLeast(limit_of(question, 9, 14)),
        _ => Gate::Between(limit_of(question, 8, 13), limit_of(question, 14, 19)),
    };
    match millkettle::pass_field(gate, text, 0, end_of(text)) {
        Ok(Passing::Passes) => rt.write_all(b": passes")?,
        Ok(Passing::Stopped) => rt.write_all(b": stopped")?,
        Err(refused) => say_refused(rt, refused)?,
    }
    rt.write_all(b"\n")
}
