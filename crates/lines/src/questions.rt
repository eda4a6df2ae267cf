// The questions: `match 0 PATTERN`, `search 0 PATTERN` and `find 0 PATTERN` with the start, `all 0 8 PATTERN` with the start and
// the words of the list, `compile PATTERN` and `tidied PATTERN`, and `rows` with rows by hand, `every` with rows of which every
// match is asked for, or `unused` with a 1 in each word that they do not use; readings.rt has those on fields
// and gates. Behind `plain` stands a match, a search or rows for the second engine.
ghost use Rattle.std.specs.Prelude.{◌≡◌, ◌-◌, ◌<◌, ◌≤◌, length, get_or, IfOk};

use crate::answers::{ENGINE_WORDS, SECOND_WORDS, code_of, compiled, found, list, run, tidied};
use crate::{made, readings};
use intake_report::find_lf;
use millkettle::{match_at, search, second_match, second_search};
use std::io;

// The byte at a place, or 0 behind the end: a 0 is no letter and no digit of a question, as nothing is.
pub fn byte_at(line: &[u8], at: usize) -> u8
    ensures { result ≡ get_or line.now at 0 }
{
    line.get(at).copied().unwrap_or(0)
}

// The number that a digit says: how far it is from `0`.
pub fn digit_at(line: &[u8], at: usize) -> u8
    ensures { result ≡ get_or line.now at 0 - 48 }
{
    byte_at(line, at).saturating_sub(b'0')
}

// The same as a place.
fn place_at(line: &[u8], at: usize) -> usize {
    usize::from(digit_at(line, at))
}

// The line from a place on.
fn rest(line: &[u8], from: usize) -> &[u8] {
    line.get(from..).unwrap_or(&[])
}

// The text that a question is about.
fn on(rt: &impl Print, text: &[u8]) -> io::Result<()> {
    rt.write_all(b" on \"")?;
    rt.write_all(text)?;
    rt.write_all(b"\"")
}

// A question to the second engine, by its first letter.
fn ask_plain(rt: &impl Print, question: &[u8], text: &[u8]) -> io::Result<()> {
    match byte_at(question, 0) {
        b'm' => run(
            rt,
            second_match,
            SECOND_WORDS,
            &code_of(rest(question, 8)),
            text,
            place_at(question, 6),
        ),
        b's' => run(
            rt,
            second_search,
            SECOND_WORDS,
            &code_of(rest(question, 9)),
            text,
            place_at(question, 7),
        ),
        _ => run(
            rt,
            second_match,
            SECOND_WORDS,
            &made::code_of(rest(question, 4), 0),
            text,
            0,
        ),
    }
}

// A question about a text, by its first letter.
fn ask_on(rt: &impl Print, question: &[u8], text: &[u8]) -> io::Result<()> {
    on(rt, text)?;
    match (byte_at(question, 0), byte_at(question, 1)) {
        (b'm', _) => run(
            rt,
            match_at,
            ENGINE_WORDS,
            &code_of(rest(question, 8)),
            text,
            place_at(question, 6),
        ),
        (b's', _) => run(
            rt,
            search,
            ENGINE_WORDS,
            &code_of(rest(question, 9)),
            text,
            place_at(question, 7),
        ),
        (b'f', _) => found(rt, rest(question, 7), text, place_at(question, 5)),
        (b'a', b'l') => {
            let code = code_of(rest(question, 8));
            list(
                rt,
                &code,
                text,
                place_at(question, 4),
                place_at(question, 6),
            )
        }
        (b'a' | b'b', _) => readings::gate(rt, question, text),
        (b'e', _) => list(rt, &made::code_of(rest(question, 5), 0), text, 0, 8),
        (b'n', _) => readings::number(rt, question, text),
        (b'p', _) => ask_plain(rt, rest(question, 6), text),
        (b'u', _) => run(
            rt,
            match_at,
            ENGINE_WORDS,
            &made::code_of(rest(question, 6), 1),
            text,
            0,
        ),
        _ => run(
            rt,
            match_at,
            ENGINE_WORDS,
            &made::code_of(rest(question, 4), 0),
            text,
            0,
        ),
    }
}

// One question, by its first letter.
fn ask(rt: &impl Print, question: &[u8], text: &[u8]) -> io::Result<()> {
    rt.write_all(question)?;
    match byte_at(question, 0) {
        b'c' => compiled(rt, rest(question, 8)),
        b't' => tidied(rt, rest(question, 7)),
        _ => ask_on(rt, question, text),
    }
}

// The question at a place, a line with a line behind it, and the place of the next one.
fn ask_at(rt: &impl Print, input: &[u8], at: usize) -> io::Result<usize>
    requires { at < length input.now }
    ensures { IfOk result (λ next. (at < next) × (next ≤ length input.now)) }
{
    let lf = find_lf(input, at, input.len());
    if lf == input.len() {
        return Ok(lf);
    }
    let stop = find_lf(input, lf + 1, input.len());
    ask(rt, &input[at..lf], &input[lf + 1..stop])?;
    Ok(input.len().min(stop + 1))
}

// All questions of the input.
pub fn ask_all(rt: &impl Print, input: &[u8]) -> io::Result<()> {
    let mut at = 0;
    while at < input.len() {
        at = ask_at(rt, input, at)?;
    }
    Ok(())
}
