// An answer: found or none with the count of rows executed, or the refusal; then four registers, which all held 7 before.
ghost use Rattle.std.specs.Prelude.{◌≡◌, ◌≤◌, length, replicate};
ghost use Rattle.compiler.specs.Compiling.{plain, code_at};

use millkettle::{Answer, Listed, Program, Refusal, Refused, Unlisted};
use std::io;

// Registers or words of a list, at most 64.
pub fn say_spans(rt: &impl Print, values: &[i32]) -> io::Result<()>
    requires { length values.now ≤ 64 }
{
    let mut line = [0u8; 800];
    let end = intake_report::put_spans(&mut line, 0, values, values.len());
    rt.write_all(b": ")?;
    rt.write_all(&line[..end])
}

// A text and the number behind it, each in a write of its own: where one fails the other still stands.
pub fn say_number(rt: &impl Print, text: &[u8], number: u64) -> io::Result<()> {
    rt.write_all(text)?;
    rt.print(number)
}

fn say_answer(rt: &impl Print, answer: Answer) -> io::Result<()> {
    match answer {
        Answer::Found(rows) => say_number(rt, b": found, rows ", rows),
        Answer::Missing(rows) => say_number(rt, b": none, rows ", rows),
    }
}

fn say_why(rt: &impl Print, why: Refusal) -> io::Result<()> {
    say_number(rt, b": refused ", u64::from(why.number()))
}

pub fn say_refused(rt: &impl Print, refused: Refused) -> io::Result<()> {
    say_why(rt, refused.why)?;
    say_number(rt, b" at ", refused.place as u64)
}

pub fn say_run(rt: &impl Print, answer: Result<Answer, Refusal>) -> io::Result<()> {
    match answer {
        Ok(answer) => say_answer(rt, answer),
        Err(why) => say_why(rt, why),
    }
}

// A pattern's code, in a buffer of zeros. Where the pattern is refused it is all zeros, which no run takes.
pub fn code_of(pattern: &[u8]) -> [u32; 640]
    ensures { (640 ≡ length result) × (result ≡ code_at plain pattern.now (replicate 640 0) (replicate 640 0)) }
{
    let mut table = [0u32; 640];
    let mut code = [0u32; 640];
    let _ = millkettle::compile(pattern, &mut table, &mut code);
    code
}

// The words of the workspace for a run of the engine, and of the second engine.
pub const ENGINE_WORDS: usize = 1600;

pub const SECOND_WORDS: usize = 4096;

// What a call answers to code on a text from a start, in so many words: a match or a search, by either engine.
pub fn run<F>(
    rt: &impl Print,
    call: F,
    words: usize,
    code: &[u32],
    text: &[u8],
    start: usize,
) -> io::Result<()>
where
    F: Fn(&[u32], &[u8], usize, &mut [i32], &mut [u32]) -> Result<Answer, Refusal>,
    requires { F.IsAlwaysCallable call }
{
    let mut registers = [7i32; 4];
    let mut workspace = [5u32; SECOND_WORDS];
    let lent = &mut workspace[..words.min(SECOND_WORDS)];
    say_run(rt, call(code, text, start, &mut registers, lent))?;
    say_spans(rt, &registers)
}

// What compiling answers.
fn say_compiled(rt: &impl Print, answer: Result<Program, Refused>) -> io::Result<()> {
    match answer {
        Ok(program) => say_number(rt, b": rows ", u64::from(program.rows))?,
        Err(refused) => say_refused(rt, refused)?,
    }
    rt.write_all(b"\n")
}

// The answer to a pattern compiled, with room for 1,024 rows.
pub fn compiled(rt: &impl Print, pattern: &[u8]) -> io::Result<()> {
    let mut table = [0u32; 640];
    let mut code = [0u32; 12300];
    say_compiled(rt, millkettle::compile(pattern, &mut table, &mut code))
}

// The same of the tidied pattern, of at most 659 bytes.
pub fn tidied(rt: &impl Print, pattern: &[u8]) -> io::Result<()> {
    let mut table = [0u32; 21120];
    let mut code = [0u32; 12300];
    say_compiled(
        rt,
        millkettle::compile_tidied(pattern, &mut table, &mut code),
    )
}

// A pattern found in a text, in one call.
pub fn found(rt: &impl Print, pattern: &[u8], text: &[u8], start: usize) -> io::Result<()> {
    let mut table = [0u32; 640];
    let mut code = [0u32; 640];
    let mut registers = [7i32; 4];
    let mut workspace = [5u32; 1600];
    match millkettle::find(
        pattern,
        text,
        start,
        &mut table,
        &mut code,
        &mut registers,
        &mut workspace,
    ) {
        Ok(answer) => say_answer(rt, answer)?,
        Err(refused) => say_refused(rt, refused)?,
    }
    say_spans(rt, &registers)
}

// What a call for every match answers, and then eight words of the list, which all held 7 before.
pub fn say_listing(
    rt: &impl Print,
    listing: Result<Listed, Unlisted>,
    list: &[i32; 8],
) -> io::Result<()> {
    match listing {
        Ok(listed) => {
            say_number(rt, b": matches ", listed.matches as u64)?;
            say_number(rt, b", rows ", listed.count)?;
        }
        Err(Unlisted::Short { needed }) => {
            say_number(rt, b": refused 25, needed ", needed as u64)?
        }
        Err(Unlisted::Refused(why)) => say_why(rt, why)?,
    }
    say_spans(rt, list)
}

// Every match of code in a text from a start on, into so many words of a list; nothing is asked of more than eight.
pub fn list(
    rt: &impl Print,
    code: &[u32],
    text: &[u8],
    start: usize,
    words: usize,
) -> io::Result<()> {
    let mut list = [7i32; 8];
    let mut workspace = [5u32; 1600];
    if words > list.len() {
        return Ok(());
    }
    let listing = millkettle::search_all(code, text, start, &mut list[..words], &mut workspace);
    say_listing(rt, listing, &list)
}
