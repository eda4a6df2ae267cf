// What the intake program writes, as bytes into a lent buffer, and where its lines end.
#![tactic(auto)]

ghost use Rattle.std.specs.Prelude.{◌≡◌, [], ◌∷◌, ◌+◌, ◌*◌, ◌≤◌, ◌<◌, length, take};
ghost use Rattle.intake_report.specs.Texts.{decimal, shown_number, spans_line, two_numbers};
ghost use Rattle.intake_report.specs.Texts.{header_line, refused_at, refused_run, none_line};
ghost use Rattle.intake_report.specs.Lines.{FoundLf};
ghost use Rattle.intake_report.specs.Wrote.{Wrote};

use meaning::limits::LF;

// One byte.
fn put_byte(out: &mut [u8], at: usize, byte: u8) -> usize
    requires { at < length out.old }
    ensures { Wrote out.old out.new at (byte ∷ []) result }
{
    out[at] = byte;
    at + 1
}

// A text, copied.
fn put_text(out: &mut [u8], at: usize, text: &[u8]) -> usize
    requires { at + length text.now ≤ length out.old }
    ensures { Wrote out.old out.new at text.now result }
{
    let end = at + text.len();
    out[at..end].copy_from_slice(text);
    end
}

// A number in decimal: the digits of its tenth, then the last. Where a text is written back from its end, showing_spelling does it.
fn put_digits(out: &mut [u8], at: usize, value: u64) -> usize
    requires { at + length (decimal value) ≤ length out.old }
    ensures { Wrote out.old out.new at (decimal value) result }
{
    if value < 10 {
        return put_byte(out, at, b'0' + value as u8);
    }
    let last = put_digits(out, at, value / 10);
    put_byte(out, last, b'0' + (value % 10) as u8)
}

// A number in decimal: a u64 has at most 20 digits.
pub fn put_decimal(out: &mut [u8], at: usize, value: u64) -> usize
    requires { at + 20 ≤ length out.old }
    ensures { Wrote out.old out.new at (decimal value) result }
{
    put_digits(out, at, value)
}

// A signed number: an i32 has at most 10 digits and a minus sign.
pub fn put_number(out: &mut [u8], at: usize, value: i32) -> usize
    requires { at + 11 ≤ length out.old }
    ensures { Wrote out.old out.new at (shown_number value) result }
{
    let digits = if value < 0 {
        put_byte(out, at, b'-')
    } else {
        at
    };
    put_digits(out, digits, u64::from(value.unsigned_abs()))
}

// The line for a match: the first registers, with a space between two.
pub fn put_spans(out: &mut [u8], at: usize, registers: &[i32], count: usize) -> usize
    requires { (count ≤ length registers.now) × (at + 12 * count + 1 ≤ length out.old) }
    ensures { Wrote out.old out.new at (spans_line (take count registers.now)) result }
{
    let mut end = at;
    if let Some((first, rest)) = registers[..count].split_first() {
        end = put_number(out, at, *first);
        for register in rest {
            let gap = put_byte(out, end, b' ');
            end = put_number(out, gap, *register);
        }
    }
    put_byte(out, end, LF)
}

// A line of two numbers, each after a text.
fn put_two(out: &mut [u8], at: usize, first: &[u8], m: u64, second: &[u8], n: u64) -> usize
    requires { at + length first.now + length second.now + 41 ≤ length out.old }
    ensures { Wrote out.old out.new at (two_numbers first.now m second.now n)
        result }
{
    let a = put_text(out, at, first);
    let b = put_decimal(out, a, m);
    let c = put_text(out, b, second);
    let d = put_decimal(out, c, n);
    put_byte(out, d, LF)
}

// The first line: how many rows and groups the pattern has.
pub fn put_header(out: &mut [u8], at: usize, rows: u64, groups: u64) -> usize
    requires { at + 54 ≤ length out.old }
    ensures { Wrote out.old out.new at (header_line rows groups) result }
{
    put_two(out, at, b"rows ", rows, b" groups ", groups)
}

// The line for a pattern that was refused.
pub fn put_refused_at(out: &mut [u8], at: usize, number: u64, place: u64) -> usize
    requires { at + 53 ≤ length out.old }
    ensures { Wrote out.old out.new at (refused_at number place) result }
{
    put_two(out, at, b"refused ", number, b" at ", place)
}

// The line for a run that was refused.
pub fn put_refused(out: &mut [u8], at: usize, number: u64) -> usize
    requires { at + 29 ≤ length out.old }
    ensures { Wrote out.old out.new at (refused_run number) result }
{
    let a = put_text(out, at, b"refused ");
    let b = put_decimal(out, a, number);
    put_byte(out, b, LF)
}

// The line for a text that the pattern does not match.
pub fn put_none(out: &mut [u8], at: usize) -> usize
    requires { at + 5 ≤ length out.old }
    ensures { Wrote out.old out.new at none_line result }
{
    put_text(out, at, b"none\n")
}

// The first LF at or behind `from` and before `to`, or `to`.
pub fn find_lf(bytes: &[u8], from: usize, to: usize) -> usize
    requires { (from ≤ to) × (to ≤ length bytes.now) }
    ensures { FoundLf bytes.now from to result }
{
    bytes[from..to]
        .iter()
        .position(|b| *b == LF)
        .map_or(to, |i| from + i)
}
