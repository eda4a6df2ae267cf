// A run: one position after the other is settled, until no thread is queued for the next.
#![tactic(auto)]

ghost use Rattle.std.specs.Prelude.{◌≡◌, ◌+◌, ◌<◌, ◌≤◌, length};
ghost use Rattle.meaning.specs.Text.{byte_before, byte_after};
ghost use Rattle.meaning.specs.Limits.{position_limit, workspace_words};
ghost use Rattle.machine.specs.Words.{rows_said, groups_said};
ghost use Rattle.running_moves.specs.Chosen.{byte_of};
ghost use Rattle.running_moves.specs.Ready.{Ready};
ghost use Rattle.running_threads.specs.Held.{Planned};
ghost use Rattle.running.specs.Ran.{PlanOf, first_spot, next_spot, Prepared, RanAs};

use machine::{GROUPS, ROWS};
use meaning::limits::NO_BYTE;
use running_moves::CONSUMED;
use running_threads::{NOWHERE, Plan, Spot};

// Whether a thread won, the count of rows executed, and where the registers of the result lie: all -1 if none won. `found` is a
// flag beside them, and no Option around them, since a caller shows the registers in both cases.
#[derive(Drop)]
pub struct Ran {
    pub found: bool,
    pub count: u64,
    pub best: usize,
    pub width: usize,
}

// Where things lie for the rows and groups that code says.
fn plan_of(code: &[u32]) -> Plan
    requires { Ready code.now }
    ensures { PlanOf code.now result }
{
    let rows = code[ROWS] as usize;
    let groups = code[GROUPS] as usize;
    let keys = rows * 2;
    let width = 2 * (groups + 1);
    let depth = keys * width;
    let tags = keys * 3;
    let olds = tags + depth;
    Plan {
        rows,
        keys,
        width,
        depth,
        tags,
        olds,
        best: olds + depth * 3,
    }
}

// The byte after a position, and the byte before it.
pub fn byte_after(text: &[u8], position: usize) -> u32
    ensures { byte_of result ≡ byte_after text.now position }
{
    match text.get(position) {
        Some(b) => *b as u32,
        None => NO_BYTE,
    }
}

pub fn byte_before(text: &[u8], position: usize) -> u32
    ensures { byte_of result ≡ byte_before text.now position }
{
    if position == 0 {
        NO_BYTE
    } else {
        byte_after(text, position - 1)
    }
}

// The first position of a run, between two bytes.
fn first_spot(plan: Plan, start: usize, before: u32, after: u32) -> Spot
    requires { Planned plan }
    ensures { result ≡ first_spot plan start before after }
{
    let registers = plan.olds + plan.depth;
    Spot {
        position: start,
        before,
        after,
        active: plan.keys,
        registers,
        threads: 1,
        queue: plan.keys * 2,
        stored: registers + plan.depth,
    }
}

// The position after another, with the byte after it: the queue's threads are active there.
fn next_spot(spot: Spot, threads: usize, after: u32) -> Spot
    requires { spot.position + 1 < position_limit }
    ensures { result ≡ next_spot spot threads after }
{
    Spot {
        position: spot.position + 1,
        before: spot.after,
        after,
        active: spot.queue,
        registers: spot.stored,
        threads,
        queue: spot.active,
        stored: spot.registers,
    }
}

// No key is marked, the one thread is at a row with the flag set and no register set, and there is no result.
fn prepare(work: &mut [u32], plan: Plan, row: usize)
    requires { Planned plan × (row < plan.rows) × (plan.best + plan.width ≤ length work.old) }
    ensures { Prepared plan row work.old work.new }
{
    running_threads::spread(work, 0, plan.keys, 0);
    work[plan.keys] = (row * 2 + CONSUMED) as u32;
    running_threads::spread(work, plan.olds + plan.depth, plan.width, NOWHERE);
    running_threads::spread(work, plan.best, plan.width, NOWHERE);
}

// The run of code on a text from a position and a row to its end.
pub fn run(code: &[u32], text: &[u8], start: usize, row: usize, work: &mut [u32]) -> Ran
    requires ready { Ready code.now × (row < rows_said code.now) }
    requires start_in_bounds { (start ≤ length text.now) × (length text.now + 2 < position_limit) }
    requires code_in_bounds { workspace_words (rows_said code.now) (groups_said code.now) ≤ length work.old }
    ensures { RanAs code.now text.now start row work.old work.new result }
{
    let plan = plan_of(code);
    prepare(work, plan, row);
    let mut spot = first_spot(
        plan,
        start,
        byte_before(text, start),
        byte_after(text, start),
    );
    let mut found = false;
    let mut count: u64 = 0;
    loop {
        let turn = running_settle::settle(code, work, plan, spot);
        count += turn.ran as u64;
        found = found | turn.accept;
        if turn.queued == 0 {
            return Ran {
                found,
                count,
                best: plan.best,
                width: plan.width,
            };
        }
        spot = next_spot(spot, turn.queued, byte_after(text, spot.position + 1));
    }
}
