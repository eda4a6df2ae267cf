// Fields of a line as numbers: a captured span is read, and gates say whether what was read passes.
#![tactic(auto)]

ghost use Rattle.std.specs.Prelude.{◌≡◌, ◌-◌, ◌^◌, ◌≤◌, ◌<◌, length, drop, MatchOption};
ghost use Rattle.std.proofs.Math.Option.{none, some};
ghost use Rattle.meaning.specs.Limits.{digit_limit};
ghost use Rattle.fields.specs.Fields.{span_of, numeral, value_of, reading_of};
ghost use Rattle.fields.specs.Scanning.{digits_from, unsigned, numeral_in, field_of};
ghost use Rattle.fields.specs.Gates.{passing, passing_field, numbers_in, holds};
ghost use Rattle.fields.specs.Laws.{Fair, Ran};
ghost use Rattle.fields.specs.Views.{reading_by, field_view, passing_view};

use meaning::limits::DIGIT_LIMIT;
use meaning::refusals::{Refusal, Refused};

// The bytes of a number beside its digits.
const MINUS: u8 = b'-';

const POINT: u8 = b'.';

// A reading keeps its value beside the number of decimals.
#[derive(Clone, Copy, Debug, PartialEq)]
pub struct Reading {
    pub value: f64,
    pub decimals: u32,
}

// At most, at least, or between two limits, ends included.
#[derive(Clone, Copy, Debug, PartialEq)]
pub enum Gate {
    AtMost(f64),
    AtLeast(f64),
    Between(f64, f64),
}

// What a gate says: it passes or stops what was read.
#[derive(Clone, Copy, Debug, PartialEq, Eq)]
pub enum Passing {
    Passes,
    Stopped,
}

// Digits that were read: the number, how many more there may be, and the place behind them.
#[derive(Clone, Copy)]
struct Run {
    number: u64,
    room: u32,
    end: usize,
}

// A digit's value. A function, so that what the subtraction asks is shown once.
fn digit_value(b: u8) -> u64
    requires { 0x30 ≤ b }
    ensures { result ≡ b - 0x30 }
{
    u64::from(b - b'0')
}

// Digits behind those that were read, as far as there may be more.
fn digits_behind(s: &[u8], read: Run) -> Run
    requires { Fair s.now read }
    ensures { Ran s.now (digits_from read.number read.room (drop read.end s.now)) result }
{
    let mut run = read;
    for b in &s[read.end..] {
        if run.room == 0 || !b.is_ascii_digit() {
            return run;
        }
        run = Run {
            number: 10 * run.number + digit_value(*b),
            room: run.room - 1,
            end: run.end + 1,
        };
    }
    run
}

// The digits as a whole number divided once by a power of ten, both exact, then negated if a minus stood there.
fn value_of(minus: bool, number: u64, decimals: u32) -> f64
    requires { (number < 10 ^ digit_limit) × (decimals ≤ digit_limit) }
    ensures { result ≡ value_of (numeral minus number decimals) }
{
    let value = number as f64 / 10u64.pow(decimals) as f64;
    if minus { -value } else { value }
}

// A number that was read.
fn number_read(minus: bool, number: u64, decimals: u32) -> Reading
    requires { (number < 10 ^ digit_limit) × (decimals ≤ digit_limit) }
    ensures { result ≡ reading_of (numeral minus number decimals) }
{
    let value = value_of(minus, number, decimals);
    Reading { value, decimals }
}

// Behind the sign: one or more digits, then nothing, or a point and one or more digits.
fn read_unsigned(s: &[u8], minus: bool, from: usize) -> Option<Reading>
    requires { from ≤ length s.now }
    ensures { result ≡ reading_by (unsigned minus (drop from s.now)) }
{
    let none = Run {
        number: 0,
        room: DIGIT_LIMIT,
        end: from,
    };
    let whole = digits_behind(s, none);
    if whole.room == DIGIT_LIMIT {
        return None;
    }
    if whole.end == s.len() {
        return Some(number_read(minus, whole.number, 0));
    }
    if s[whole.end] != POINT {
        return None;
    }
    let behind = Run {
        end: whole.end + 1,
        ..whole
    };
    let all = digits_behind(s, behind);
    if all.end < s.len() || all.room == whole.room {
        return None;
    }
    Some(number_read(minus, all.number, whole.room - all.room))
}

// The bytes of a span, with or without a minus before them.
fn read_bytes(s: &[u8]) -> Option<Reading>
    ensures { result ≡ reading_by (numeral_in s.now) }
{
    if s.first().copied() == Some(MINUS) {
        return read_unsigned(s, true, 1);
    }
    read_unsigned(s, false, 0)
}

// The bytes of a captured span, two registers as they stand, if the text has them.
fn span_of(text: &[u8], start: i32, end: i32) -> Option<&[u8]>
    ensures { MatchOption result (span_of text.now start end ≡ none) (λ s. span_of text.now start end ≡ some s.now) }
{
    let from = usize::try_from(start).ok()?;
    let to = usize::try_from(end).ok()?;
    text.get(from..to)
}

// A captured span read as a number: an optional minus, one or more digits, optionally a point and one or more digits, 15 digits
// at most in all. Any other span is refused as 28, one that has no bytes in the text included.
pub fn read_field(text: &[u8], start: i32, end: i32) -> Result<Reading, Refused>
    ensures { field_view result ≡ field_of text.now start end }
{
    span_of(text, start, end)
        .and_then(read_bytes)
        .ok_or(Refused::from(Refusal::BadField))
}

impl Gate {
    // Whether its limits are numbers.
    fn has_numbers(self) -> bool
        ensures { result ≡ numbers_in self }
    {
        match self {
            Gate::AtMost(limit) | Gate::AtLeast(limit) => !limit.is_nan(),
            Gate::Between(low, high) => !low.is_nan() && !high.is_nan(),
        }
    }

    // Whether a value lies within its limits. One whose lower limit is above its upper holds nothing.
    fn holds(self, value: f64) -> bool
        ensures { result ≡ holds self value }
    {
        match self {
            Gate::AtMost(limit) => value <= limit,
            Gate::AtLeast(limit) => limit <= value,
            Gate::Between(low, high) => !(high < low) && low <= value && value <= high,
        }
    }
}

// Whether a gate passes what was read. A gate whose limit is no number is refused as 29.
pub fn pass(gate: Gate, reading: Reading) -> Result<Passing, Refused>
    ensures { passing_view result ≡ passing gate reading }
{
    if !gate.has_numbers() {
        return Err(Refused::from(Refusal::BadGate));
    }
    if gate.holds(reading.value) {
        return Ok(Passing::Passes);
    }
    Ok(Passing::Stopped)
}

// Whether a gate passes a captured span. A span that is no number is refused first.
pub fn pass_field(gate: Gate, text: &[u8], start: i32, end: i32) -> Result<Passing, Refused>
    ensures { passing_view result ≡ passing_field gate text.now start end }
{
    pass(gate, read_field(text, start, end)?)
}
