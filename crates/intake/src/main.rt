// The intake program: a pattern line and text lines from standard input, a line for each to standard output.
#![tactic(auto)]

ghost use Rattle.std.specs.Prelude.{◌≡◌};
ghost use Rattle.intake.specs.Standing.{goes_on, Through, Turned};

use intake_feeding::{KEPT_LIMIT, Space};
use intake_lines::{Buffers, Phase};
use meaning::limits::{CODE_SIZE, TABLE_SIZE, WORKSPACE_SIZE};
use std::io;
use std::io::Read;

// The bytes of the buffers for what is read and for what is written.
const BUFFER_SIZE: usize = 65536;

// Where the work stands between two pieces of the input, how many bytes of the present line are kept, and whether a write failed,
// beside which the others keep their meaning: `Through` speaks of all three.
#[derive(Clone, Copy)]
struct Standing {
    phase: Phase,
    kept: usize,
    failed: bool,
}

// Whether there is something left to do.
fn goes_on(standing: Standing) -> bool
    ensures { result ≡ goes_on standing }
{
    standing.phase != Phase::Over && !standing.failed
}

// Writes to standard output, and says so if it cannot.
fn send(rt: &(impl Print + Eprint), text: &[u8]) -> io::Result<()> {
    let sent = rt.write_all(text);
    if sent.is_err() {
        let _ = eprintln!(rt; "intake: standard output cannot be written");
    }
    sent
}

// A piece of the input, with a write for each buffer that it fills; a write that fails is the last.
fn work_through(
    rt: &(impl Print + Eprint),
    standing: Standing,
    piece: &[u8],
    space: &mut Space,
    out: &mut [u8; BUFFER_SIZE],
) -> Standing
    ensures { Through standing piece.now space.old.line space.new.line space.old.buffers.code
        space.new.buffers.code result }
{
    let mut now = Standing {
        failed: false,
        ..standing
    };
    let mut from = 0;
    while from < piece.len() && !now.failed {
        let fed = space.feed(now.phase, now.kept, &piece[from..], out);
        now = Standing {
            phase: fed.phase,
            kept: fed.kept,
            failed: send(rt, &out[..fed.end]).is_err(),
        };
        from += fed.taken;
    }
    now
}

// What was read: a piece of the input, or no byte, which is its end.
fn turn(
    rt: &(impl Print + Eprint),
    standing: Standing,
    piece: &[u8],
    space: &mut Space,
    out: &mut [u8; BUFFER_SIZE],
) -> Standing
    ensures { Turned standing piece.now space.old.line space.new.line space.old.buffers.code
        space.new.buffers.code out.old out.new result }
{
    if piece.len() > 0 {
        return work_through(rt, standing, piece, space, out);
    }
    let fed = space.finish(standing.phase, standing.kept, out);
    Standing {
        phase: Phase::Over,
        kept: 0,
        failed: send(rt, &out[..fed.end]).is_err(),
    }
}

// A proved loop has to end, and nothing says that the input does: there are more turns than any run takes.
fn main(rt: HostRuntime) {
    let mut chunk = [0u8; BUFFER_SIZE];
    let mut out = [0u8; BUFFER_SIZE];
    let mut space = Space {
        line: [0; KEPT_LIMIT],
        buffers: Buffers {
            table: [0; TABLE_SIZE],
            code: [0; CODE_SIZE],
            workspace: [0; WORKSPACE_SIZE],
        },
    };
    let mut standing = Standing {
        phase: Phase::Pattern,
        kept: 0,
        failed: false,
    };
    let mut input = rt.stdin();
    for _ in 0..u64::MAX {
        if !goes_on(standing) {
            return;
        }
        let Ok(n) = input.read(&mut chunk) else {
            let _ = eprintln!(rt; "intake: standard input cannot be read");
            return;
        };
        standing = turn(&rt, standing, &chunk[..n], &mut space, &mut out);
    }
}
