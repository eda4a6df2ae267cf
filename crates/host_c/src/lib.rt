// The static library of `host`: its calls, exported under their C names. The header millkettle.h says them in C.
#![tactic(auto)]

mod readings; // readings.rt: fields as numbers, and gates

ghost use Rattle.machine.specs.Steps.{search_row, match_row};
ghost use Rattle.millkettle.specs.Calls.Compiling.{plain, tidied};
ghost use Rattle.host.specs.Surface.{CompilesBytes, RunsBytes, SecondsWords};

use host::{Compiled, Ran};

// Compiles a pattern into lent bytes. Answers 0 with the rows and groups, and the code's bytes stand in front of those
// that stood behind them; or the number and place of a refusal, and all bytes are as they were.
#[unsafe(no_mangle)]
pub extern "C" fn millkettle_compile(pattern: &[u8], code: &mut [u8]) -> Compiled
    ensures { CompilesBytes plain pattern.now code.old result code.new }
{
    host::millkettle_compile(pattern, code)
}

// Compiles the tidied pattern. Answers as `millkettle_compile` does, but 16 is by the tidied pattern's rows.
#[unsafe(no_mangle)]
pub extern "C" fn millkettle_compile_tidied(pattern: &[u8], code: &mut [u8]) -> Compiled
    ensures { CompilesBytes tidied pattern.now code.old result code.new }
{
    host::millkettle_compile_tidied(pattern, code)
}

// Matches at the start. Answers 0 with found or none and the count, and the registers' bytes stand in front of those
// that stood behind them; or the number of a refusal, and all bytes are as they were.
#[unsafe(no_mangle)]
pub extern "C" fn millkettle_match(
    code: &[u8],
    text: &[u8],
    start: usize,
    registers: &mut [u8],
) -> Ran
    ensures { RunsBytes match_row code.now text.now start registers.old result
        registers.new }
{
    host::millkettle_match(code, text, start, registers)
}

// Searches from the start on, for the first position that matches. Answers as `millkettle_match` does.
#[unsafe(no_mangle)]
pub extern "C" fn millkettle_search(
    code: &[u8],
    text: &[u8],
    start: usize,
    registers: &mut [u8],
) -> Ran
    ensures { RunsBytes search_row code.now text.now start registers.old result
        registers.new }
{
    host::millkettle_search(code, text, start, registers)
}

// Matches at the start by the second engine, in words that are lent as they are: its workspace is as large as its formula says.
// Answers 0 with found or none and the count, or the number of a refusal, and all is as it was.
#[unsafe(no_mangle)]
pub extern "C" fn millkettle_second_match(
    code: &[u32],
    text: &[u8],
    start: usize,
    registers: &mut [i32],
    workspace: &mut [u32],
) -> Ran
    ensures { SecondsWords match_row code.now text.now start registers.old
        workspace.old result registers.new workspace.new }
{
    host::millkettle_second_match(code, text, start, registers, workspace)
}

// Searches from the start on by the second engine. Answers as `millkettle_second_match` does.
#[unsafe(no_mangle)]
pub extern "C" fn millkettle_second_search(
    code: &[u32],
    text: &[u8],
    start: usize,
    registers: &mut [i32],
    workspace: &mut [u32],
) -> Ran
    ensures { SecondsWords search_row code.now text.now start registers.old
        workspace.old result registers.new workspace.new }
{
    host::millkettle_second_search(code, text, start, registers, workspace)
}
