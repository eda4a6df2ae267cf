// From a pattern's bytes to the code of its program, or to the outline's refusal: of the pattern as it was read, or tidied.
#![tactic(auto)]

ghost use Rattle.std.specs.Prelude.{Err};
ghost use Rattle.meaning.specs.Refusing.{number_of};
ghost use Rattle.compiler.specs.Compiling.{plain, tidied, compilation_of, Compiles};
ghost use Rattle.code_rows.specs.Emission.{SomeTabled};
ghost use Rattle.compiler.specs.Programs.{SomeStored, TellsRows, Cleared};
ghost use Rattle.compiler.specs.Steps.{Small, Written};

use meaning::limits::{LEAST_ROWS, ROW_LIMIT};
use meaning::refusals::{Refusal, Refused};
use reading::Pattern;
use reading_items::clear;
use tidying::tidy;

// A program that was written: its rows in the code, and its groups.
#[derive(Clone, Copy, Debug, PartialEq, Eq)]
pub struct Program {
    pub rows: u32,
    pub groups: u32,
}

// A pattern that was read and has no program: its table is made zero.
fn without_program(table: &mut [u32], why: Refusal) -> Refused
    ensures { Cleared (number_of why) table.old table.new (compilation_of (Err result)) }
{
    clear(table, 0);
    why.into()
}

// Whether the pattern that is stored in a table has too many rows. What is asked: that there is such a pattern.
fn many_rows(table: &[u32], records: usize) -> bool
    requires { SomeStored table.now records }
    ensures { TellsRows result table.now records }
{
    let whole = table::root(table, records);
    LEAST_ROWS + whole.size > ROW_LIMIT
}

// A pattern that is read and has few enough rows: 15 is by its own rows, also where it is tidied afterwards.
fn read_small(pattern: &[u8], table: &mut [u32]) -> Result<Pattern, Refused>
    ensures { Small pattern.now table.old table.new result }
{
    match reading::read(pattern, table) {
        Err(refused) => Err(refused),
        Ok(read) => {
            if many_rows(table, read.records) {
                return Err(without_program(table, Refusal::ManyRows));
            }
            Ok(read)
        }
    }
}

// The program of the pattern that a table holds: 16 is by the rows of that one.
fn write_program(
    table: &mut [u32],
    records: usize,
    groups: u32,
    code: &mut [u32],
) -> Result<Program, Refused>
    requires { SomeTabled table.old records }
    ensures { Written table.old table.new records groups code.old code.new (compilation_of result) }
{
    match code_rows::emit(table, records, groups, code) {
        Ok(rows) => Ok(Program { rows, groups }),
        Err(why) => Err(without_program(table, why)),
    }
}

// Refusals 1 to 3 leave the table alone, the others make it zero, and all leave the code alone.
pub fn compile(pattern: &[u8], table: &mut [u32], code: &mut [u32]) -> Result<Program, Refused>
    ensures { Compiles plain pattern.now table.old table.new code.old
        code.new (compilation_of result) }
{
    let read = read_small(pattern, table)?;
    write_program(table, read.records, read.groups, code)
}

// Refusals are those of the plain pattern, but 16 is by the rows of the tidied one.
pub fn compile_tidied(
    pattern: &[u8],
    table: &mut [u32],
    code: &mut [u32],
) -> Result<Program, Refused>
    ensures { Compiles tidied pattern.now table.old table.new code.old
        code.new (compilation_of result) }
{
    let read = read_small(pattern, table)?;
    let records = tidy(table, read.records);
    write_program(table, records, read.groups, code)
}
