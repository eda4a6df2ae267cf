// The intake's work on an input that comes in pieces: bytes are kept until their line ends, and its line is written to a buffer.
#![tactic(auto)]

ghost use Rattle.std.specs.Prelude.{◌≡◌, ◌+◌, ◌≤◌, length};
ghost use Rattle.intake_lines.specs.Ended.{line_room};
ghost use Rattle.intake_feeding.specs.Work.{kept_limit, last_bytes};
ghost use Rattle.intake_feeding.specs.Fed.{work_of, Keeps, Steps, Feeds, Untouched};

use intake_lines::{Buffers, LINE_LIMIT, LINE_ROOM, Phase};
use meaning::limits::{CODE_SIZE, LF, TABLE_SIZE, WORKSPACE_SIZE};

// A line is kept up to one byte more than its limit, which shows that it is too long.
pub const KEPT_LIMIT: usize = LINE_LIMIT + 1;

// Where the work stands, how many bytes are kept of the present line and taken of the piece, where what was written ends, and
// whether bytes of the piece are left since there is no room for a line more. `full` is a fact of its own, beside which no other
// value is void: `Feeds` says when it holds.
#[derive(Clone, Copy, Debug, PartialEq, Eq)]
pub struct Fed {
    pub phase: Phase,
    pub kept: usize,
    pub taken: usize,
    pub end: usize,
    pub full: bool,
}

// The bytes of the present line, and what its end needs.
#[derive(Drop)]
pub struct Space {
    pub line: [u8; KEPT_LIMIT],
    pub buffers: Buffers,
}

// A byte more of the present line. It asks for the whole line buffer, and that no more bytes are kept than there may be.
fn keep(line: &mut [u8], kept: usize, byte: u8) -> usize
    requires { (length line.old ≡ kept_limit) × (kept ≤ kept_limit) }
    ensures { Keeps kept byte line.old line.new result }
{
    if kept >= KEPT_LIMIT {
        return kept;
    }
    line[kept] = byte;
    kept + 1
}

// The next byte of a piece. It asks that no more bytes are kept than there may be, and for room for a line.
fn step(
    fed: Fed,
    byte: u8,
    line: &mut [u8; KEPT_LIMIT],
    table: &mut [u32; TABLE_SIZE],
    code: &mut [u32; CODE_SIZE],
    workspace: &mut [u32; WORKSPACE_SIZE],
    out: &mut [u8],
) -> Fed
    requires { (fed.kept ≤ kept_limit) × (fed.end + line_room ≤ length out.old) }
    ensures { Steps fed byte line.old line.new code.old code.new
        out.old out.new result }
{
    if byte != LF {
        return Fed {
            kept: keep(line, fed.kept, byte),
            full: false,
            ..fed
        };
    }
    let line = &line[..fed.kept];
    let ended = intake_lines::end_line(fed.phase, line, table, code, workspace, out, fed.end);
    Fed {
        phase: ended.phase,
        kept: 0,
        taken: fed.taken,
        end: ended.end,
        full: false,
    }
}

// A piece of the input, as far as there is room for a line. Where no byte is taken nothing changes.
pub fn feed(
    phase: Phase,
    kept: usize,
    piece: &[u8],
    line: &mut [u8; KEPT_LIMIT],
    table: &mut [u32; TABLE_SIZE],
    code: &mut [u32; CODE_SIZE],
    workspace: &mut [u32; WORKSPACE_SIZE],
    out: &mut [u8],
) -> Fed
    ensures feeds { Feeds phase kept piece.now line.old line.new code.old
        code.new out.old out.new result }
    ensures untouched { result.taken ≡ 0 → Untouched line.old line.new table.old table.new
        workspace.old workspace.new }
{
    let mut fed = Fed {
        phase,
        kept: kept.min(line.len()),
        taken: 0,
        end: 0,
        full: false,
    };
    for byte in piece {
        if out.len() - fed.end < LINE_ROOM {
            break;
        }
        fed = Fed {
            taken: fed.taken + 1,
            ..step(fed, *byte, line, table, code, workspace, out)
        };
    }
    fed.full = fed.taken < piece.len();
    fed
}

// The input's end: a last line without LF counts unless it is empty, as if LF ended it.
pub fn finish(
    phase: Phase,
    kept: usize,
    line: &mut [u8; KEPT_LIMIT],
    table: &mut [u32; TABLE_SIZE],
    code: &mut [u32; CODE_SIZE],
    workspace: &mut [u32; WORKSPACE_SIZE],
    out: &mut [u8],
) -> Fed
    ensures feeds { Feeds phase kept (last_bytes (work_of phase kept line.old code.old))
        line.old line.new code.old code.new out.old out.new result }
    ensures untouched { result.taken ≡ 0 → Untouched line.old line.new table.old table.new
        workspace.old workspace.new }
{
    if kept == 0 {
        return feed(phase, kept, b"", line, table, code, workspace, out);
    }
    feed(phase, kept, b"\n", line, table, code, workspace, out)
}

impl Space {
    // A piece of the input, in these arrays.
    pub fn feed(&mut self, phase: Phase, kept: usize, piece: &[u8], out: &mut [u8]) -> Fed
        ensures feeds { Feeds phase kept piece.now self.old.line self.new.line self.old.buffers.code
            self.new.buffers.code out.old out.new result }
        ensures untouched { result.taken ≡ 0 → Untouched self.old.line self.new.line self.old.buffers.table
            self.new.buffers.table self.old.buffers.workspace self.new.buffers.workspace }
    {
        let line = &mut self.line;
        let Buffers {
            table,
            code,
            workspace,
        } = &mut self.buffers;
        feed(phase, kept, piece, line, table, code, workspace, out)
    }

    // The input's end, in these arrays.
    pub fn finish(&mut self, phase: Phase, kept: usize, out: &mut [u8]) -> Fed
        ensures feeds { Feeds phase kept (last_bytes (work_of phase kept self.old.line self.old.buffers.code))
            self.old.line self.new.line self.old.buffers.code self.new.buffers.code out.old out.new result }
        ensures untouched { result.taken ≡ 0 → Untouched self.old.line self.new.line self.old.buffers.table
            self.new.buffers.table self.old.buffers.workspace self.new.buffers.workspace }
    {
        let line = &mut self.line;
        let Buffers {
            table,
            code,
            workspace,
        } = &mut self.buffers;
        finish(phase, kept, line, table, code, workspace, out)
    }
}
