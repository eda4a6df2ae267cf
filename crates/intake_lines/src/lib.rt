// The intake program's lines, in arrays of fixed sizes (no heap): a pattern line is compiled, a text line searched, and what is
// written for it goes to a lent buffer.
#![tactic(auto)]

ghost use Rattle.std.specs.Prelude.{◌+◌, ◌≤◌, length};
ghost use Rattle.intake_report.specs.Wrote.{Wrote};
ghost use Rattle.intake_lines.specs.Intake.{line_for};
ghost use Rattle.intake_lines.specs.Ended.{line_room, Ends};
ghost use Rattle.intake_lines.specs.declared.Phase.TheVariants.{Pattern};

use machine::GROUPS;
use meaning::limits::{CODE_SIZE, REGISTER_LIMIT, TABLE_SIZE, WORKSPACE_SIZE};
use meaning::refusals::Refusal;
use millkettle::Answer;

// The most bytes of a line.
pub const LINE_LIMIT: usize = 4096;

pub const LINE_ROOM: usize = 12 * REGISTER_LIMIT + 1;

// Where the work stands: at the pattern line, at text lines, or over, since the pattern was refused.
#[derive(Clone, Copy, Debug, PartialEq, Eq)]
pub enum Phase {
    Pattern,
    Texts,
    Over,
}

// Behind a line: where the work stands, and where what was written for it ends.
#[derive(Clone, Copy, Debug, PartialEq, Eq)]
pub struct Ended {
    pub phase: Phase,
    pub end: usize,
}

// What lines need beside their bytes: a pattern's table, its code, and what a search asks for.
#[derive(Drop)]
pub struct Buffers {
    pub table: [u32; TABLE_SIZE],
    pub code: [u32; CODE_SIZE],
    pub workspace: [u32; WORKSPACE_SIZE],
}

// The line for a text line. It asks for room.
fn put_text_line(
    code: &[u32; CODE_SIZE],
    line: &[u8],
    workspace: &mut [u32; WORKSPACE_SIZE],
    out: &mut [u8],
    at: usize,
) -> usize
    requires { at + line_room ≤ length out.old }
    ensures { Wrote out.old out.new at (line_for code.now line.now) result }
{
    if line.len() > LINE_LIMIT {
        return intake_report::put_refused(out, at, u64::from(Refusal::LongText.number()));
    }
    let mut registers = [0i32; REGISTER_LIMIT];
    match millkettle::search(code, line, 0, &mut registers, workspace) {
        Ok(Answer::Found(_)) => {
            let groups = code[GROUPS] as usize;
            intake_report::put_spans(out, at, &registers, 2 * (groups + 1))
        }
        Ok(Answer::Missing(_)) => intake_report::put_none(out, at),
        Err(why) => intake_report::put_refused(out, at, why.number() as u64),
    }
}

// The line for the pattern line, whose rows are in the code behind it. It asks for room.
fn put_pattern_line(
    pattern: &[u8],
    table: &mut [u32; TABLE_SIZE],
    code: &mut [u32; CODE_SIZE],
    out: &mut [u8],
    at: usize,
) -> Ended
    requires { at + line_room ≤ length out.old }
    ensures { Ends Pattern pattern.now code.old code.new out.old
        out.new at result }
{
    match millkettle::compile(pattern, table, code) {
        Ok(program) => Ended {
            phase: Phase::Texts,
            end: intake_report::put_header(out, at, program.rows as u64, program.groups as u64),
        },
        Err(refused) => Ended {
            phase: Phase::Over,
            end: intake_report::put_refused_at(
                out,
                at,
                u64::from(refused.why.number()),
                refused.place as u64,
            ),
        },
    }
}

// The end of a line, by where the work stands. It asks for room.
pub fn end_line(
    phase: Phase,
    line: &[u8],
    table: &mut [u32; TABLE_SIZE],
    code: &mut [u32; CODE_SIZE],
    workspace: &mut [u32; WORKSPACE_SIZE],
    out: &mut [u8],
    at: usize,
) -> Ended
    requires { at + line_room ≤ length out.old }
    ensures { Ends phase line.now code.old code.new out.old
        out.new at result }
{
    match phase {
        Phase::Pattern => put_pattern_line(line, table, code, out, at),
        Phase::Texts => Ended {
            phase: Phase::Texts,
            end: put_text_line(code, line, workspace, out, at),
        },
        Phase::Over => Ended {
            phase: Phase::Over,
            end: at,
        },
    }
}

impl Buffers {
    // The end of a line, in these arrays.
    pub fn end_line(&mut self, phase: Phase, line: &[u8], out: &mut [u8], at: usize) -> Ended
        requires { at + line_room ≤ length out.old }
        ensures { Ends phase line.now self.old.code self.new.code out.old
            out.new at result }
    {
        let Buffers {
            table,
            code,
            workspace,
        } = self;
        end_line(phase, line, table, code, workspace, out, at)
    }
}
