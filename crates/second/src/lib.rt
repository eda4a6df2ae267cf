// A plain second engine: an ordinary backtracking matcher that remembers which row and flag were tried at which position, and
// never tries them twice. docs/SECOND.md walks through it. Its marks and choices lie in lent words of a fixed number: no heap.
#![tactic(auto)]

ghost use Rattle.std.specs.Prelude.{◌≡◌, true, ◌+◌, ◌<◌, ◌≤◌, length};
ghost use Rattle.meaning.specs.Limits.{least_rows, second_limit, word_limit};
ghost use Rattle.machine.specs.Steps.{search_row, match_row};
ghost use Rattle.machine.specs.Words.{rows_said};
ghost use Rattle.machine.specs.Replies.{lend};
ghost use Rattle.running_moves.specs.Keys.{keys_of};
ghost use Rattle.running_moves.specs.Chosen.{Ranged};
ghost use Rattle.running_moves.specs.Ready.{Ready};
ghost use Rattle.engine.specs.Answers.{answer_of};
ghost use Rattle.engine.specs.Turned.{refused_by};
ghost use Rattle.second.specs.Replies.{second_refusal, Seconded};
ghost use Rattle.second.specs.Held.{going_of, choice_at, Laid, Serves, Sound, Stored, Wiped, Ahead, Going, Went, Standing, Attempted};
ghost use Rattle.second.specs.Held.{LayoutOf, Ran};

use engine::Answer;
use machine::{GROUPS, MATCH_ROW, ROWS, SEARCH_ROW};
use meaning::limits::SECOND_LIMIT;
use meaning::refusals::Refusal;
use running_moves::{CONSUMED, Move};
use running_threads::NOWHERE;

// The word that marks a row and flag as tried at a position, and the word before.
const TRIED: u32 = 1;

const UNTRIED: u32 = 0;

// Where things lie in the workspace. First the marks, word position * rows * 2 + key, where a key is row * 2 + flag. Behind them
// the registers of the thread that runs. Behind those the choices, the oldest first, each a key, a position and registers.
#[derive(Clone, Copy)]
pub struct Layout {
    // The text's length, how many rows, and how many registers a thread has.
    pub length: usize,
    pub rows: usize,
    pub width: usize,
    // How many marks there are. There are never more choices.
    pub marks: usize,
}

// How a search stands: a thread runs, one won, or there is none left.
#[derive(Clone, Copy)]
pub enum State {
    Runs,
    Won,
    Ended,
}

// How a search stands; the thread that runs, by its key and its position; how many choices are stored; and the count of rows
// executed.
#[derive(Clone, Copy)]
pub struct Trial {
    pub state: State,
    pub key: usize,
    pub position: usize,
    pub stored: usize,
    pub count: u64,
}

// Where a choice lies.
fn choice_at(layout: Layout, index: usize) -> usize
    requires { choice_at layout index < word_limit }
    ensures { result ≡ choice_at layout index }
{
    layout.marks + layout.width + index * (layout.width + 2)
}

// The second choice of a Fork is stored: a key, with the position and the registers of the thread that runs.
fn store(work: &mut [u32], layout: Layout, trial: Trial, key: usize)
    requires laid { Laid layout (length work.old) × (trial.stored < layout.marks) }
    requires key_lt_word_limit { (key < word_limit) × (trial.position < word_limit) }
    ensures { Stored layout trial key work.old work.new }
{
    let at = choice_at(layout, trial.stored);
    work[at] = key as u32;
    work[at + 1] = trial.position as u32;
    running_threads::copy(work, layout.marks, at + 2, layout.width);
}

// The thread ends, and the newest choice goes on; without one the search has ended.
fn back(work: &mut [u32], layout: Layout, mut trial: Trial) -> Trial
    requires { Going layout trial work.old }
    ensures { Went layout Move.Lose trial work.old work.new result }
{
    if trial.stored == 0 {
        trial.state = State::Ended;
        return trial;
    }
    trial.stored -= 1;
    let at = choice_at(layout, trial.stored);
    trial.key = work[at] as usize;
    trial.position = work[at + 1] as usize;
    running_threads::copy(work, at + 2, layout.marks, layout.width);
    trial
}

// The registers from one on to before another become -1.
fn wipe(work: &mut [u32], layout: Layout, from: usize, to: usize)
    requires { (layout.marks + layout.width ≤ length work.old) × (to ≤ layout.width) }
    ensures { Wiped layout from to work.old work.new }
{
    if from < to {
        running_threads::spread(work, layout.marks + from, to - from, NOWHERE);
    }
}

// What the thread that runs does, by the move of its row.
fn follow(work: &mut [u32], layout: Layout, mut trial: Trial, mv: Move) -> Trial
    requires going { Going layout trial work.old × (trial.stored < layout.marks) }
    requires ranged { Ranged layout.rows layout.width mv × Ahead trial.position layout.length mv }
    ensures { Went layout mv trial work.old work.new result }
{
    let position = trial.position;
    match mv {
        Move::Win => {
            trial.state = State::Won;
            trial
        }
        Move::Lose => back(work, layout, trial),
        Move::Eat(key) => {
            trial.position = position + 1;
            trial.key = key;
            trial
        }
        Move::On(key) => {
            trial.key = key;
            trial
        }
        Move::Both(first, second) => {
            store(work, layout, trial, second);
            trial.stored += 1;
            trial.key = first;
            trial
        }
        Move::Write(register, key) => {
            work[layout.marks + register] = position as u32;
            trial.key = key;
            trial
        }
        Move::Wipe(from, to, key) => {
            wipe(work, layout, from, to);
            trial.key = key;
            trial
        }
    }
}

// One step. A row and flag tried before at its position ends the thread; any other is marked, counts one and does what its row
// says.
fn attempt(code: &[u32], text: &[u8], work: &mut [u32], layout: Layout, mut trial: Trial) -> Trial
    requires ready { Ready code.now × Serves code.now text.now layout }
    requires standing { Standing layout trial work.old × (going_of trial.state ≡ true) }
    ensures { Attempted code.now text.now layout trial work.old work.new result }
{
    let key = trial.key;
    let position = trial.position;
    let mark = position * (layout.rows * 2) + key;
    if work[mark] == TRIED {
        return back(work, layout, trial);
    }
    work[mark] = TRIED;
    trial.count += 1;
    let before = running::byte_before(text, position);
    let after = running::byte_after(text, position);
    let mv = running_moves::move_of(code, before, after, key);
    follow(work, layout, trial, mv)
}

// Where things lie for the rows and groups that code says, and a text of some length.
fn layout_of(code: &[u32], length: usize) -> Layout
    requires { Ready code.now × (length ≤ second_limit) }
    ensures { LayoutOf code.now length result }
{
    let rows = code[ROWS] as usize;
    let groups = code[GROUPS] as usize;
    Layout {
        length,
        rows,
        width: 2 * (groups + 1),
        marks: (length + 1) * (rows * 2),
    }
}

// The search of code on a text from a position and a row to its end. Where none was found the registers are all -1.
fn run(
    code: &[u32],
    text: &[u8],
    work: &mut [u32],
    layout: Layout,
    start: usize,
    row: usize,
) -> Trial
    requires ready { Ready code.now × Serves code.now text.now layout × Laid layout (length work.old) }
    requires start_in_bounds { (start ≤ length text.now) × (row < rows_said code.now) }
    ensures { Ran code.now text.now layout start row work.old work.new result }
{
    running_threads::spread(work, 0, layout.marks, UNTRIED);
    running_threads::spread(work, layout.marks, layout.width, NOWHERE);
    let mut trial = Trial {
        state: State::Runs,
        key: row * 2 + CONSUMED,
        position: start,
        stored: 0,
        count: 0,
    };
    // Field by field, since a copy of the whole copies the padding beside the state too, which took half as much time again.
    while let State::Runs = trial.state {
        let next = attempt(code, text, work, layout, trial);
        trial = Trial {
            state: next.state,
            key: next.key,
            position: next.position,
            stored: next.stored,
            count: next.count,
        };
    }
    if let State::Ended = trial.state {
        running_threads::spread(work, layout.marks, layout.width, NOWHERE);
    }
    trial
}

// Whether a run is turned away, and why: the first ground in order that holds. The tests are this engine's own.
fn turned_away(
    code: &[u32],
    text: &[u8],
    start: usize,
    registers: usize,
    workspace: usize,
) -> Result<(), Refusal>
    ensures { refused_by result ≡ second_refusal code.now (lend text.now start registers workspace) }
{
    if !code_check::check(code) {
        return Err(Refusal::CodeFails);
    }
    if text.len() > SECOND_LIMIT {
        return Err(Refusal::LongText);
    }
    if start > text.len() {
        return Err(Refusal::StartBeyond);
    }
    let n = code[ROWS] as usize;
    let g = code[GROUPS] as usize;
    if registers < 2 * (g + 1) {
        return Err(Refusal::FewRegisters);
    }
    if workspace < n * (4 * g + 10) * (text.len() + 1) + 2 * (g + 1) {
        return Err(Refusal::SmallWorkspace);
    }
    Ok(())
}

// The answer to a call that begins at a row: as the engine's, over this engine's words and run.
fn reply_from(
    code: &[u32],
    text: &[u8],
    start: usize,
    row: usize,
    registers: &mut [i32],
    workspace: &mut [u32],
) -> Result<Answer, Refusal>
    requires { row < least_rows }
    ensures { Seconded code.now text.now start row registers.old
        workspace.old (answer_of result) registers.new workspace.new }
{
    turned_away(code, text, start, registers.len(), workspace.len())?;
    let layout = layout_of(code, text.len());
    let trial = run(code, text, workspace, layout, start, row);
    engine::copy_out(registers, workspace, layout.marks, layout.width);
    if let State::Won = trial.state {
        Ok(Answer::Found(trial.count))
    } else {
        Ok(Answer::Missing(trial.count))
    }
}

// Whether the pattern matches at the start.
pub fn second_match(
    code: &[u32],
    text: &[u8],
    start: usize,
    registers: &mut [i32],
    workspace: &mut [u32],
) -> Result<Answer, Refusal>
    ensures { Seconded code.now text.now start match_row registers.old
        workspace.old (answer_of result) registers.new workspace.new }
{
    reply_from(code, text, start, MATCH_ROW, registers, workspace)
}

// Whether the pattern matches at the start or at a later position, the first of them.
pub fn second_search(
    code: &[u32],
    text: &[u8],
    start: usize,
    registers: &mut [i32],
    workspace: &mut [u32],
) -> Result<Answer, Refusal>
    ensures { Seconded code.now text.now start search_row registers.old
        workspace.old (answer_of result) registers.new workspace.new }
{
    reply_from(code, text, start, SEARCH_ROW, registers, workspace)
}
