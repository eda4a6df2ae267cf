// The engine: a pattern's code matched at a position of a text, or searched from it on, in lent words alone.
#![tactic(auto)]

ghost use Rattle.std.specs.Prelude.{◌≡◌, ◌++◌, map, ◌+◌, ◌<◌, ◌≤◌, length, drop, MatchResult};
ghost use Rattle.meaning.specs.Limits.{least_rows};
ghost use Rattle.machine.specs.Steps.{search_row, match_row};
ghost use Rattle.machine.specs.Replies.{lend, refusal, shown};
ghost use Rattle.running_threads.specs.Words.{words_at};
ghost use Rattle.running_threads.specs.Threads.{reg_of};
ghost use Rattle.engine.specs.Answers.{shown_word, answer_of, Answered};
ghost use Rattle.engine.specs.Turned.{refused_by, Sized, Unfit};

use machine::{GROUPS, MATCH_ROW, ROWS, SEARCH_ROW};
use meaning::limits::{POSITION_LIMIT, TEXT_LIMIT};
use meaning::refusals::Refusal;

// Found or none, with the count of rows executed.
#[derive(Clone, Copy, Debug, PartialEq, Eq)]
pub enum Answer {
    Found(u64),
    Missing(u64),
}

// How many rows code has, and how many groups.
#[derive(Clone, Copy)]
pub struct Sizes {
    pub rows: usize,
    pub groups: usize,
}

// The sizes of code that may run on a text of at most `longest` bytes; or the first of the grounds that each engine has but for
// the words of its workspace, which come behind them.
pub fn sizes_of(
    code: &[u32],
    text: &[u8],
    start: usize,
    registers: usize,
    longest: usize,
) -> Result<Sizes, Refusal>
    ensures { MatchResult result (Sized code.now text.now start registers longest)
        (Unfit code.now text.now start registers longest) }
{
    if !code_check::check(code) {
        return Err(Refusal::CodeFails);
    }
    if text.len() > longest {
        return Err(Refusal::LongText);
    }
    if start > text.len() {
        return Err(Refusal::StartBeyond);
    }
    let rows = code[ROWS] as usize;
    let groups = code[GROUPS] as usize;
    if registers < 2 * (groups + 1) {
        return Err(Refusal::FewRegisters);
    }
    Ok(Sizes { rows, groups })
}

// Whether a run is turned away, and why: the first ground in order that holds.
pub fn turned_away(
    code: &[u32],
    text: &[u8],
    start: usize,
    registers: usize,
    workspace: usize,
) -> Result<(), Refusal>
    ensures { refused_by result ≡ refusal code.now (lend text.now start registers workspace) }
{
    let sizes = sizes_of(code, text, start, registers, TEXT_LIMIT)?;
    if workspace < 16 * sizes.rows * (sizes.groups + 2) {
        return Err(Refusal::SmallWorkspace);
    }
    Ok(())
}

// The number that a register's word shows: a position, or -1.
fn show(v: u32) -> i32
    ensures { result ≡ shown (reg_of v) }
{
    if v < POSITION_LIMIT { v as i32 } else { -1 }
}

// The first registers show the words at `from`. Later registers stay.
pub fn copy_out(registers: &mut [i32], work: &[u32], from: usize, width: usize)
    requires { (from + width ≤ length work.now) × (width ≤ length registers.old) }
    ensures { registers.new
        ≡ map shown_word (words_at work.now from width) ++ drop width registers.old }
{
    for i in 0..width {
        registers[i] = show(work[from + i]);
    }
}

// The answer to a call that begins at a row. The second engine has one of its own: other words are asked for, and another run.
fn reply_from(
    code: &[u32],
    text: &[u8],
    start: usize,
    row: usize,
    registers: &mut [i32],
    workspace: &mut [u32],
) -> Result<Answer, Refusal>
    requires { row < least_rows }
    ensures { Answered code.now text.now start row registers.old
        workspace.old (answer_of result) registers.new workspace.new }
{
    turned_away(code, text, start, registers.len(), workspace.len())?;
    let ran = running::run(code, text, start, row, workspace);
    copy_out(registers, workspace, ran.best, ran.width);
    if ran.found {
        Ok(Answer::Found(ran.count))
    } else {
        Ok(Answer::Missing(ran.count))
    }
}

// Whether the pattern matches at the start.
pub fn match_at(
    code: &[u32],
    text: &[u8],
    start: usize,
    registers: &mut [i32],
    workspace: &mut [u32],
) -> Result<Answer, Refusal>
    ensures { Answered code.now text.now start match_row registers.old
        workspace.old (answer_of result) registers.new workspace.new }
{
    reply_from(code, text, start, MATCH_ROW, registers, workspace)
}

// Whether the pattern matches at the start or at a later position, the first of them.
pub fn search(
    code: &[u32],
    text: &[u8],
    start: usize,
    registers: &mut [i32],
    workspace: &mut [u32],
) -> Result<Answer, Refusal>
    ensures { Answered code.now text.now start search_row registers.old
        workspace.old (answer_of result) registers.new workspace.new }
{
    reply_from(code, text, start, SEARCH_ROW, registers, workspace)
}
