// The calls that users link: patterns are compiled, code is matched and searched, by a second engine too, and `find` compiles and
// searches; what was captured is read as a number, and gates say whether it passes. None asks anything of its arguments: what it
// cannot do it refuses by the outline's number, and a refusal leaves behind what the outline says.
#![tactic(auto)]

ghost use Rattle.std.specs.Prelude.{◌≡◌};
ghost use Rattle.machine.specs.Steps.{search_row, match_row};
ghost use Rattle.compiler.specs.Compiling.{plain, tidied, compilation_of, Compiles};
ghost use Rattle.engine.specs.Answers.{answer_of, Answered};
ghost use Rattle.repetition.specs.Listings.{listing_of, Lists};
ghost use Rattle.fields.specs.Scanning.{field_of};
ghost use Rattle.fields.specs.Gates.{passing, passing_field};
ghost use Rattle.fields.specs.Views.{field_view, passing_view};
ghost use Rattle.second.specs.Replies.{Seconded};
ghost use Rattle.millkettle.specs.Finding.{finding_view, Finds};

pub use compiler::Program;
pub use engine::Answer;
pub use fields::{Gate, Passing, Reading};
pub use meaning::refusals::{Refusal, Refused};
pub use repetition::{Listed, Unlisted};

// A pattern's bytes as code. Answers how many rows and groups it has, or refuses it by the outline's number at a place: 1 to 3
// change nothing, 4 to 16 make the whole table zero, and all leave the code alone. Words of the code behind its rows stay.
pub fn compile(pattern: &[u8], table: &mut [u32], code: &mut [u32]) -> Result<Program, Refused>
    ensures { Compiles plain pattern.now table.old table.new code.old
        code.new (compilation_of result) }
{
    compiler::compile(pattern, table, code)
}

// As `compile`, for the tidied pattern: refusals are those of the plain one, but 16 is by the tidied one's rows. The table
// then holds the tidied pattern.
pub fn compile_tidied(
    pattern: &[u8],
    table: &mut [u32],
    code: &mut [u32],
) -> Result<Program, Refused>
    ensures { Compiles tidied pattern.now table.old table.new code.old
        code.new (compilation_of result) }
{
    compiler::compile_tidied(pattern, table, code)
}

// Whether code matches at the start. Answers found or none with the count of rows executed, or refuses by 20 to 24 and changes
// nothing. The first registers hold starts and ends, -1 and -1 for a group that took no part and for all of them on none;
// later ones stay.
pub fn match_at(
    code: &[u32],
    text: &[u8],
    start: usize,
    registers: &mut [i32],
    workspace: &mut [u32],
) -> Result<Answer, Refusal>
    ensures { Answered code.now text.now start match_row registers.old
        workspace.old (answer_of result) registers.new workspace.new }
{
    engine::match_at(code, text, start, registers, workspace)
}

// Whether code matches at the start or behind it, the first position that does. Answers as `match_at`.
pub fn search(
    code: &[u32],
    text: &[u8],
    start: usize,
    registers: &mut [i32],
    workspace: &mut [u32],
) -> Result<Answer, Refusal>
    ensures { Answered code.now text.now start search_row registers.old
        workspace.old (answer_of result) registers.new workspace.new }
{
    engine::search(code, text, start, registers, workspace)
}

// Every match of code from a start on, in order, as repeated execution with the global flag finds them: their spans go into the
// list, one match behind the other. Answers how many there are, with the counts of all runs in one sum; or how many words are
// needed, if the list has fewer, which then stays as it was; or refuses by 20, 21, 22 or 24 and changes nothing.
pub fn search_all(
    code: &[u32],
    text: &[u8],
    start: usize,
    list: &mut [i32],
    workspace: &mut [u32],
) -> Result<Listed, Unlisted>
    ensures { Lists code.now text.now start list.old list.new
        workspace.old workspace.new (listing_of result) }
{
    repetition::search_all(code, text, start, list, workspace)
}

// A second opinion on `match_at`, by a plain backtracking matcher (docs/SECOND.md): for texts to 4,096 bytes the same answer and
// the same registers, in a larger workspace. The count of rows executed is its own. Refuses by 20 to 24 and changes nothing.
pub fn second_match(
    code: &[u32],
    text: &[u8],
    start: usize,
    registers: &mut [i32],
    workspace: &mut [u32],
) -> Result<Answer, Refusal>
    ensures { Seconded code.now text.now start match_row registers.old
        workspace.old (answer_of result) registers.new workspace.new }
{
    second::second_match(code, text, start, registers, workspace)
}

// A second opinion on `search`. Answers as `second_match`.
pub fn second_search(
    code: &[u32],
    text: &[u8],
    start: usize,
    registers: &mut [i32],
    workspace: &mut [u32],
) -> Result<Answer, Refusal>
    ensures { Seconded code.now text.now start search_row registers.old
        workspace.old (answer_of result) registers.new workspace.new }
{
    second::second_search(code, text, start, registers, workspace)
}

// A pattern searched in a text from a start, in one call. Answers the refusal of the pattern or of the run, or found with the
// spans that the standard's search reaches first, or none exactly if that finds nothing. Table and code hold what `compile`
// writes.
pub fn find(
    pattern: &[u8],
    text: &[u8],
    start: usize,
    table: &mut [u32],
    code: &mut [u32],
    registers: &mut [i32],
    workspace: &mut [u32],
) -> Result<Answer, Refused>
    ensures { Finds pattern.now text.now start table.old table.new
        code.old code.new registers.old registers.new workspace.old
        workspace.new (finding_view result) }
{
    compiler::compile(pattern, table, code)?;
    let answer = engine::search(code, text, start, registers, workspace)?;
    Ok(answer)
}

// A captured span, two registers as they stand, read as a number: an optional minus, one or more digits, optionally a point and
// one or more digits, 15 digits at most in all. Any other span is refused as 28, one that has no bytes in the text included.
pub fn read_field(text: &[u8], start: i32, end: i32) -> Result<Reading, Refused>
    ensures { field_view result ≡ field_of text.now start end }
{
    fields::read_field(text, start, end)
}

// Whether a gate passes what was read, ends included. A gate whose limit is no number is refused as 29, and one whose lower
// limit is above its upper passes nothing.
pub fn pass(gate: Gate, reading: Reading) -> Result<Passing, Refused>
    ensures { passing_view result ≡ passing gate reading }
{
    fields::pass(gate, reading)
}

// Whether a gate passes a captured span. A span that is no number is refused first.
pub fn pass_field(gate: Gate, text: &[u8], start: i32, end: i32) -> Result<Passing, Refused>
    ensures { passing_view result ≡ passing_field gate text.now start end }
{
    fields::pass_field(gate, text, start, end)
}
