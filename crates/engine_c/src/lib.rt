// Millkettle for a caller in Rust or C that lends words: table, code, registers, list and workspace as they are and of any size.
// Nothing is copied. The header millkettle.h says it in C.
#![tactic(auto)]

ghost use Rattle.std.specs.Prelude.{◌≡◌};
ghost use Rattle.machine.specs.Steps.{search_row, match_row};
ghost use Rattle.millkettle.specs.Calls.Compiling.{plain, tidied};
ghost use Rattle.millkettle.specs.Calls.Listings.{listing_of};
ghost use Rattle.engine_c.specs.Calls.{listed_numbers, CompilesWords, RunsWords, ListsWords};

use host::{Compiled, Ran};
use millkettle::{Refusal, Unlisted};

// What a call for every match answers: 0, how many there are and the count of rows executed; or the number of a refusal, at
// place 0, and with 25 how many words are needed.
#[repr(C)]
#[derive(Drop)]
pub struct Listed {
    pub number: u32,
    pub place: usize,
    pub matches: usize,
    pub needed: usize,
    pub count: u64,
}

// The numbers passed for each case of the answer.
impl From<Result<millkettle::Listed, Unlisted>> for Listed {
    ghost from_gives = { λ answer numbers. numbers ≡ listed_numbers (listing_of answer) };

    fn from(answer: Result<millkettle::Listed, Unlisted>) -> Listed {
        match answer {
            Ok(listed) => Listed {
                number: 0,
                place: 0,
                matches: listed.matches,
                needed: 0,
                count: listed.count,
            },
            Err(Unlisted::Short { needed }) => Listed {
                number: Refusal::ShortList.number(),
                place: 0,
                matches: 0,
                needed,
                count: 0,
            },
            Err(Unlisted::Refused(why)) => Listed {
                number: why.number(),
                place: 0,
                matches: 0,
                needed: 0,
                count: 0,
            },
        }
    }
}

// Compiles a pattern into lent words.
#[unsafe(no_mangle)]
pub extern "C" fn millkettle_compile_words(
    pattern: &[u8],
    table: &mut [u32],
    code: &mut [u32],
) -> Compiled
    ensures { CompilesWords plain pattern.now table.old table.new code.old
        code.new result }
{
    millkettle::compile(pattern, table, code).into()
}

// Compiles the tidied pattern. Answers as `millkettle_compile_words` does, but 16 is by the tidied pattern's rows.
#[unsafe(no_mangle)]
pub extern "C" fn millkettle_compile_tidied_words(
    pattern: &[u8],
    table: &mut [u32],
    code: &mut [u32],
) -> Compiled
    ensures { CompilesWords tidied pattern.now table.old table.new code.old
        code.new result }
{
    millkettle::compile_tidied(pattern, table, code).into()
}

// Matches at the start.
#[unsafe(no_mangle)]
pub extern "C" fn millkettle_match_words(
    code: &[u32],
    text: &[u8],
    start: usize,
    registers: &mut [i32],
    workspace: &mut [u32],
) -> Ran
    ensures { RunsWords match_row code.now text.now start registers.old
        registers.new workspace.old workspace.new result }
{
    millkettle::match_at(code, text, start, registers, workspace).into()
}

// Searches from the start on, for the first position that matches.
#[unsafe(no_mangle)]
pub extern "C" fn millkettle_search_words(
    code: &[u32],
    text: &[u8],
    start: usize,
    registers: &mut [i32],
    workspace: &mut [u32],
) -> Ran
    ensures { RunsWords search_row code.now text.now start registers.old
        registers.new workspace.old workspace.new result }
{
    millkettle::search(code, text, start, registers, workspace).into()
}

// Every match from the start on, in order, into a lent list.
#[unsafe(no_mangle)]
pub extern "C" fn millkettle_search_all_words(
    code: &[u32],
    text: &[u8],
    start: usize,
    list: &mut [i32],
    workspace: &mut [u32],
) -> Listed
    ensures { ListsWords code.now text.now start list.old list.new
        workspace.old workspace.new result }
{
    millkettle::search_all(code, text, start, list, workspace).into()
}
