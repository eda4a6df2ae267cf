// Every match in a text: code is searched again and again, as repeated execution with the global flag does.
#![tactic(auto)]

ghost use Rattle.std.specs.Prelude.{◌≡◌, [], ◌∷◌, map, ◌+◌, ◌<◌, ◌≤◌, length};
ghost use Rattle.meaning.specs.Limits.{position_limit, text_limit, workspace_words};
ghost use Rattle.machine.specs.Words.{rows_said, groups_said};
ghost use Rattle.machine.specs.Repetition.{next_start};
ghost use Rattle.running_moves.specs.Ready.{Ready};
ghost use Rattle.running_threads.specs.Words.{words_at};
ghost use Rattle.running_threads.specs.Threads.{reg_of};
ghost use Rattle.engine.specs.Answers.{shown_word};
ghost use Rattle.repetition.specs.Listings.{listing_of, Lists};
ghost use Rattle.repetition.specs.Passing.{placed, Passes};
ghost use Rattle.repetition.specs.declared.Unlisted.TheVariants.{Refused};

use machine::{GROUPS, SEARCH_ROW};
use meaning::limits::{POSITION_LIMIT, REGISTER_LIMIT};
use meaning::refusals::Refusal;

// Every match stands in the list: how many there are, and the count of rows executed.
#[derive(Clone, Copy, Debug, PartialEq, Eq)]
pub struct Listed {
    pub matches: usize,
    pub count: u64,
}

// Why no match stands in the list: it is too short, and so many words are needed; or the call is turned away.
#[derive(Clone, Copy, Debug, PartialEq, Eq)]
pub enum Unlisted {
    Short { needed: usize },
    Refused(Refusal),
}

impl From<Refusal> for Unlisted {
    ghost from_gives = { λ why unlisted. unlisted ≡ Refused why };

    fn from(why: Refusal) -> Unlisted {
        Unlisted::Refused(why)
    }
}

// Where the next run starts, from a run's start and the words of the first two registers.
fn next_start(start: usize, from: u32, to: u32) -> usize
    requires { start < position_limit }
    ensures { result ≡ next_start start (reg_of from ∷ reg_of to ∷ []) }
{
    if POSITION_LIMIT <= to {
        return start + 1;
    }
    let next = if from == to {
        to as usize + 1
    } else {
        to as usize
    };
    next.max(start + 1)
}

// The words of a match behind those that are filled, if the list has room for them.
fn put(list: &mut [i32], filled: usize, work: &[u32], from: usize, width: usize)
    requires { (from + width ≤ length work.now) × (filled + width < position_limit) }
    ensures { list.new
        ≡ placed filled (map shown_word (words_at work.now from width)) list.old }
{
    if list.len() < filled + width {
        return;
    }
    engine::copy_out(&mut list[filled..], work, from, width);
}

// The repetition of code on a text. Its matches are written one behind the other, as long as the list has room.
fn pass(code: &[u32], text: &[u8], start: usize, list: &mut [i32], work: &mut [u32]) -> Listed
    requires ready { Ready code.now × (length text.now ≤ text_limit) }
    requires code_in_bounds { workspace_words (rows_said code.now) (groups_said code.now) ≤ length work.old }
    ensures { Passes code.now text.now start list.old list.new
        work.old work.new result }
{
    let mut at = start;
    let mut matches: usize = 0;
    let mut filled: usize = 0;
    let mut count: u64 = 0;
    while at <= text.len() {
        let ran = running::run(code, text, at, SEARCH_ROW, work);
        count += ran.count;
        if !ran.found {
            return Listed { matches, count };
        }
        put(list, filled, work, ran.best, ran.width);
        filled += ran.width;
        matches += 1;
        at = next_start(at, work[ran.best], work[ran.best + 1]);
    }
    Listed { matches, count }
}

// Every match, in order, from a start on. The list stays untouched until their number is known: where it may be too short, they
// are counted first.
pub fn search_all(
    code: &[u32],
    text: &[u8],
    start: usize,
    list: &mut [i32],
    workspace: &mut [u32],
) -> Result<Listed, Unlisted>
    ensures { Lists code.now text.now start list.old list.new
        workspace.old workspace.new (listing_of result) }
{
    engine::turned_away(code, text, start, REGISTER_LIMIT, workspace.len())?;
    let width = 2 * (code[GROUPS] as usize + 1);
    if (text.len() - start + 1) * width <= list.len() {
        return Ok(pass(code, text, start, list, workspace));
    }
    let counted = pass(code, text, start, &mut list[0..0], workspace);
    let needed = counted.matches * width;
    if list.len() < needed {
        return Err(Unlisted::Short { needed });
    }
    Ok(pass(code, text, start, list, workspace))
}
