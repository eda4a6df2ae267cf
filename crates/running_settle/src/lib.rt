// One position is settled: its threads run until none is active, from the byte before it and the byte after it alone.
#![tactic(auto)]

ghost use Rattle.std.specs.Prelude.{◌+◌, ◌<◌, length};
ghost use Rattle.meaning.specs.Limits.{position_limit};
ghost use Rattle.running_moves.specs.Chosen.{Ranged};
ghost use Rattle.running_moves.specs.Ready.{Ready};
ghost use Rattle.running_threads.specs.Held.{Laid};
ghost use Rattle.running_settle.specs.Moved.{pushes, Serves, Room, Ample, Went, Applied};
ghost use Rattle.running_settle.specs.Moved.{Turning, Executed, Opens, SettledAs};

use running_moves::Move;
use running_threads::{Plan, Spot};

// A thread's turn: where its registers are, the frames and the queued threads, how many rows were executed at this position,
// and whether it won: a flag, since the other words of a winner are wanted as those of any thread.
#[derive(Drop)]
pub struct Turn {
    pub at: usize,
    pub frames: usize,
    pub queued: usize,
    pub ran: usize,
    pub accept: bool,
}

// The thread is queued with a key.
fn eat(work: &mut [u32], plan: Plan, spot: Spot, mut turn: Turn, key: usize) -> Turn
    requires { Ample plan spot turn work.old × Ranged plan.rows plan.width (Move.Eat key) }
    ensures { Applied plan spot (Move.Eat key) turn work.old work.new result }
{
    running_threads::queue(work, plan, spot, turn.at, turn.queued, key);
    turn.queued += 1;
    turn
}

// It goes on with a key.
fn go_on(work: &mut [u32], plan: Plan, mut turn: Turn, key: usize) -> Turn
    requires { Room plan turn work.old × Ranged plan.rows plan.width (Move.On key) }
    ensures { Went plan (pushes 0 (Move.On key)) turn work.old work.new result }
{
    running_threads::push(work, plan, turn.frames, key);
    turn.frames += 1;
    turn
}

// It goes two ways: the second choice waits below the first.
fn go_both(work: &mut [u32], plan: Plan, mut turn: Turn, first: usize, second: usize) -> Turn
    requires { Room plan turn work.old × Ranged plan.rows plan.width (Move.Both first second) }
    ensures { Went plan (pushes 0 (Move.Both first second)) turn work.old work.new result }
{
    let frames = turn.frames;
    running_threads::push(work, plan, frames, second);
    running_threads::push(work, plan, frames + 1, first);
    turn.frames = frames + 2;
    turn
}

// It writes a position to a register, and goes on with a key.
fn write_on(
    work: &mut [u32],
    plan: Plan,
    mut turn: Turn,
    position: usize,
    register: usize,
    key: usize,
) -> Turn
    requires room { Room plan turn work.old × Ranged plan.rows plan.width (Move.Write register key) }
    requires position_lt_position_limit { position < position_limit }
    ensures { Went plan (pushes position (Move.Write register key)) turn work.old work.new result }
{
    let frames = turn.frames;
    running_threads::write(work, plan, turn.at, frames, register, position as u32);
    running_threads::push(work, plan, frames + 1, key);
    turn.frames = frames + 2;
    turn
}

// It makes the registers from one on to before another -1, and goes on with a key.
fn wipe_on(work: &mut [u32], plan: Plan, mut turn: Turn, from: usize, to: usize, key: usize) -> Turn
    requires { Room plan turn work.old × Ranged plan.rows plan.width (Move.Wipe from to key) }
    ensures { Went plan (pushes 0 (Move.Wipe from to key)) turn work.old work.new result }
{
    let top = running_threads::wipe(work, plan, turn.at, turn.frames, from, to);
    running_threads::push(work, plan, top, key);
    turn.frames = top + 1;
    turn
}

// A move of the thread whose turn it is.
fn apply(work: &mut [u32], plan: Plan, spot: Spot, mut turn: Turn, mv: Move) -> Turn
    requires { Ample plan spot turn work.old × Ranged plan.rows plan.width mv }
    ensures { Applied plan spot mv turn work.old work.new result }
{
    match mv {
        Move::Win => {
            turn.accept = true;
            turn
        }
        Move::Lose => turn,
        Move::Eat(key) => eat(work, plan, spot, turn, key),
        Move::On(key) => go_on(work, plan, turn, key),
        Move::Both(first, second) => go_both(work, plan, turn, first, second),
        Move::Write(register, key) => write_on(work, plan, turn, spot.position, register, key),
        Move::Wipe(from, to, key) => wipe_on(work, plan, turn, from, to, key),
    }
}

// The turn of the thread of a key: one step of the machine. A key that is marked was executed at this position.
fn execute(code: &[u32], work: &mut [u32], plan: Plan, spot: Spot, key: usize, turn: Turn) -> Turn
    requires { Ready code.now × Serves code.now plan × Turning plan spot key turn work.old }
    ensures { Executed code.now plan spot key turn work.old work.new result }
{
    let mark = (spot.position + 1) as u32;
    if work[key] == mark {
        return turn;
    }
    work[key] = mark;
    let mv = running_moves::move_of(code, spot.before, spot.after, key);
    let mut done = apply(work, plan, spot, turn, mv);
    done.ran += 1;
    done
}

// The threads of a position run, the first with all that comes of it before the second. A winner's registers are kept. The last
// turn says whether a thread won, how many are queued, and how many rows were executed.
pub fn settle(code: &[u32], work: &mut [u32], plan: Plan, spot: Spot) -> Turn
    requires ready { Ready code.now × Serves code.now plan }
    requires laid { Laid plan spot (length work.old) × Opens plan spot work.old }
    ensures { SettledAs code.now plan spot work.old work.new result }
{
    let mut key = work[spot.active] as usize;
    let mut index: usize = 1;
    let mut turn = Turn {
        at: spot.registers,
        frames: 0,
        queued: 0,
        ran: 0,
        accept: false,
    };
    loop {
        let done = execute(code, work, plan, spot, key, turn);
        if done.accept {
            running_threads::copy(work, done.at, plan.best, plan.width);
            return done;
        }
        let Some(next) = running_threads::take(work, plan, spot, done.at, index, done.frames) else {
            return done;
        };
        key = next.key;
        index = next.index;
        turn = Turn {
            at: next.at,
            frames: next.frames,
            queued: done.queued,
            ran: done.ran,
            accept: false,
        };
    }
}
