// Millkettle for programs in other languages: numbers and byte slices, words as four bytes, low byte first. The static library
// `host_c` exports these calls, and the header millkettle.h says it in C.
#![tactic(auto)]

pub mod readings; // readings.rt: fields as numbers, and gates

ghost use Rattle.std.specs.Prelude.{◌≡◌, min};
ghost use Rattle.machine.specs.Steps.{search_row, match_row};
ghost use Rattle.millkettle.specs.Calls.Compiling.{plain, tidied, compilation_of};
ghost use Rattle.millkettle.specs.Calls.Answers.{reply_of, answer_of};
ghost use Rattle.host.specs.Surface.{compiled_numbers, ran_numbers, lent_words, CompilesBytes, RunsBytes};
ghost use Rattle.host.specs.Surface.{CompilesBy, RunsBy, SecondsWords};

use meaning::limits::{CODE_SIZE, REGISTER_LIMIT, TABLE_SIZE, WORKSPACE_SIZE};
use millkettle::{Answer, Program, Refusal, Refused};
use wire::{load, store};

// What compiling answers: 0, the rows and the groups; or the number of a refusal and its place.
#[repr(C)]
#[derive(Drop)]
pub struct Compiled {
    pub number: u32,
    pub rows: u32,
    pub groups: u32,
    pub place: usize,
}

// What a run answers: 0, found (1) or none (0) and the count of rows executed; or the number of a refusal, at place 0.
#[repr(C)]
#[derive(Drop)]
pub struct Ran {
    pub number: u32,
    pub found: u32,
    pub place: usize,
    pub count: u64,
}

// The numbers passed for each case of the answer.
impl From<Result<Program, Refused>> for Compiled {
    ghost from_gives = { λ answer numbers. numbers ≡ compiled_numbers (compilation_of answer) };

    fn from(answer: Result<Program, Refused>) -> Compiled {
        match answer {
            Ok(program) => Compiled {
                number: 0,
                rows: program.rows,
                groups: program.groups,
                place: 0,
            },
            Err(refused) => Compiled {
                number: refused.why.number(),
                rows: 0,
                groups: 0,
                place: refused.place,
            },
        }
    }
}

// The numbers passed for each case of the answer.
impl From<Result<Answer, Refusal>> for Ran {
    ghost from_gives = { λ answer numbers. numbers ≡ ran_numbers (reply_of (answer_of answer)) };

    fn from(answer: Result<Answer, Refusal>) -> Ran {
        match answer {
            Ok(Answer::Found(count)) => Ran {
                number: 0,
                found: 1,
                place: 0,
                count,
            },
            Ok(Answer::Missing(count)) => Ran {
                number: 0,
                found: 0,
                place: 0,
                count,
            },
            Err(why) => Ran {
                number: why.number(),
                found: 0,
                place: 0,
                count: 0,
            },
        }
    }
}

// The words that so many bytes lend, at most so many of them: a part word counts as not lent. The specs have the same name.
fn lent_words(bytes: usize, most: usize) -> usize
    ensures { result ≡ min (lent_words bytes) most }
{
    (bytes / 4).min(most)
}

// A pattern compiled by a call into lent bytes, with table and code words of our own.
fn compile_lent<F>(compile: F, pattern: &[u8], code: &mut [u8]) -> Compiled
where
    F: FnOnce(&[u8], &mut [u32], &mut [u32]) -> Result<Program, Refused>,
    requires { F.IsAlwaysCallable compile }
    ensures { CompilesBy (F.post compile pattern.entry) code.old result code.new }
{
    let mut table = [0u32; TABLE_SIZE];
    let mut inside = [0u32; CODE_SIZE];
    let room = lent_words(code.len(), CODE_SIZE);
    let words = &mut inside[..room];
    load(code, words);
    let answer = compile(pattern, &mut table, words);
    store(words, code);
    answer.into()
}

// Compiles a pattern into lent bytes. Answers 0 with the rows and groups, and the code's bytes stand in front of those
// that stood behind them; or the number and place of a refusal, and all bytes are as they were.
pub fn millkettle_compile(pattern: &[u8], code: &mut [u8]) -> Compiled
    ensures { CompilesBytes plain pattern.now code.old result code.new }
{
    compile_lent(millkettle::compile, pattern, code)
}

// Compiles the tidied pattern. Answers as `millkettle_compile` does, but 16 is by the tidied pattern's rows.
pub fn millkettle_compile_tidied(pattern: &[u8], code: &mut [u8]) -> Compiled
    ensures { CompilesBytes tidied pattern.now code.old result code.new }
{
    compile_lent(millkettle::compile_tidied, pattern, code)
}

// A run on lent bytes, with registers and a workspace of our own: too much code is turned away, and else the call answers.
fn run_lent<F>(run: F, code: &[u8], text: &[u8], start: usize, registers: &mut [u8]) -> Ran
where
    F: FnOnce(&[u32], &[u8], usize, &mut [i32], &mut [u32]) -> Result<Answer, Refusal>,
    requires { F.IsAlwaysCallable run }
    ensures { RunsBy (λ words. F.post run words text.entry start) code.now registers.old
        result registers.new }
{
    let lent = code.len() / 4;
    if lent > CODE_SIZE {
        return Err(Refusal::CodeFails).into();
    }
    let mut inside = [0u32; CODE_SIZE];
    let words = &mut inside[..lent];
    load(code, words);
    let mut slots = [0i32; REGISTER_LIMIT];
    let used = lent_words(registers.len(), REGISTER_LIMIT);
    let spans = &mut slots[..used];
    load(registers, spans);
    let mut workspace = [0u32; WORKSPACE_SIZE];
    let answer = run(words, text, start, spans, &mut workspace);
    store(spans, registers);
    answer.into()
}

// Matches at the start. Answers 0 with found or none and the count, and the registers' bytes stand in front of those
// that stood behind them; or the number of a refusal, and all bytes are as they were.
pub fn millkettle_match(code: &[u8], text: &[u8], start: usize, registers: &mut [u8]) -> Ran
    ensures { RunsBytes match_row code.now text.now start registers.old result
        registers.new }
{
    run_lent(millkettle::match_at, code, text, start, registers)
}

// Searches from the start on, for the first position that matches. Answers as `millkettle_match` does.
pub fn millkettle_search(code: &[u8], text: &[u8], start: usize, registers: &mut [u8]) -> Ran
    ensures { RunsBytes search_row code.now text.now start registers.old result
        registers.new }
{
    run_lent(millkettle::search, code, text, start, registers)
}

// Matches at the start by the second engine, in words that are lent as they are: its workspace is as large as its formula says.
// Answers 0 with found or none and the count, or the number of a refusal, and all is as it was.
pub fn millkettle_second_match(
    code: &[u32],
    text: &[u8],
    start: usize,
    registers: &mut [i32],
    workspace: &mut [u32],
) -> Ran
    ensures { SecondsWords match_row code.now text.now start registers.old
        workspace.old result registers.new workspace.new }
{
    millkettle::second_match(code, text, start, registers, workspace).into()
}

// Searches from the start on by the second engine. Answers as `millkettle_second_match` does.
pub fn millkettle_second_search(
    code: &[u32],
    text: &[u8],
    start: usize,
    registers: &mut [i32],
    workspace: &mut [u32],
) -> Ran
    ensures { SecondsWords search_row code.now text.now start registers.old
        workspace.old result registers.new workspace.new }
{
    millkettle::second_search(code, text, start, registers, workspace).into()
}
