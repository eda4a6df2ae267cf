// The threads of a run, in the words of its workspace (WORKSPACE.md has the layout), which is lent and of a fixed size: no heap.
#![tactic(auto)]

ghost use Rattle.std.specs.Prelude.{◌≡◌, ◌+◌, ◌-◌, ◌<◌, ◌≤◌, length, set};
ghost use Rattle.meaning.specs.Limits.{word_limit};
ghost use Rattle.running_threads.specs.Words.{Below, Clear, Pasted, Spread};
ghost use Rattle.running_threads.specs.Held.{Frame, Laid, Runs, Tags, Stack, put_back, Wrote, Wiped, Queued, Popped, Took};

// Stands for -1 in a register. A position is below 2 ^ 31.
pub const NOWHERE: u32 = 4294967295;

// Where things lie, for `rows` rows and `width` registers to a thread.
#[derive(Clone, Copy)]
pub struct Plan {
    pub rows: usize,
    // How many keys there are: a key is row * 2 + flag.
    pub keys: usize,
    pub width: usize,
    // The most frames of the stack, and as many words as the registers of a position take.
    pub depth: usize,
    // Where the stack's tags and its old values lie.
    pub tags: usize,
    pub olds: usize,
    // Where the registers of the result lie.
    pub best: usize,
}

// A position, the bytes beside it, and where its threads and its queue lie.
#[derive(Clone, Copy)]
pub struct Spot {
    pub position: usize,
    pub before: u32,
    pub after: u32,
    // The keys of this position's threads, their registers, and how many they are.
    pub active: usize,
    pub registers: usize,
    pub threads: usize,
    // The keys of the queue for the next position, and their registers.
    pub queue: usize,
    pub stored: usize,
}

// A thread that was taken off the stack: its key, and how many frames are left.
#[derive(Clone, Copy)]
pub struct Off {
    pub key: usize,
    pub frames: usize,
}

// The first active thread: its key and where its registers are, with what is left: threads from index on, and frames.
#[derive(Clone, Copy)]
pub struct Taken {
    pub key: usize,
    pub at: usize,
    pub index: usize,
    pub frames: usize,
}

// A key on top of the frames: a thread with the registers as they are.
pub fn push(work: &mut [u32], plan: Plan, frames: usize, key: usize)
    requires { (plan.tags + frames < length work.old) × (key < word_limit) }
    ensures { work.new ≡ set work.old (plan.tags + frames) key }
{
    work[plan.tags + frames] = key as u32;
}

// A register at `at` gets a value. A frame on top of the others keeps what it was, for the threads below.
pub fn write(work: &mut [u32], plan: Plan, at: usize, frames: usize, register: usize, value: u32)
    requires { Stack plan at frames work.old × (frames < plan.depth) × (register < plan.width) }
    ensures { Wrote plan at frames register value work.old work.new }
{
    work[plan.tags + frames] = (plan.keys + register) as u32;
    work[plan.olds + frames] = work[at + register];
    work[at + register] = value;
}

// The registers from one on to before another become -1.
pub fn wipe(work: &mut [u32], plan: Plan, at: usize, frames: usize, from: usize, to: usize) -> usize
    requires { Stack plan at frames work.old × (frames + (to - from) ≤ plan.depth) × (to ≤ plan.width) }
    ensures { Wiped plan at frames from (to - from) work.old work.new result }
{
    let mut top = frames;
    for register in from..to {
        write(work, plan, at, top, register, NOWHERE);
        top += 1;
    }
    top
}

// The words at `from` also stand at `to`. By a loop: with `copy_within` the engine was measured slower.
pub fn copy(work: &mut [u32], from: usize, to: usize, count: usize)
    requires { (from + count ≤ length work.old) × (to + count ≤ length work.old) × Clear from count to count }
    ensures { Pasted from to count work.old work.new }
{
    for i in 0..count {
        work[to + i] = work[from + i];
    }
}

// Each of the words at `from` becomes the value. By a loop: with `fill` a call that executes few rows was measured slower.
pub fn spread(work: &mut [u32], from: usize, count: usize, value: u32)
    requires { from + count ≤ length work.old }
    ensures { Spread from count value work.old work.new }
{
    for i in 0..count {
        work[from + i] = value;
    }
}

// The thread of a key and the registers at `at` is queued behind the others.
pub fn queue(work: &mut [u32], plan: Plan, spot: Spot, at: usize, queued: usize, key: usize)
    requires laid { Laid plan spot (length work.old) × Frame plan at plan.best }
    requires clear { Clear at plan.width spot.stored plan.depth × (queued < plan.keys) × (key < word_limit) }
    ensures { Queued plan spot at queued key work.old work.new }
{
    work[spot.queue + queued] = key as u32;
    copy(work, at, spot.stored + queued * plan.width, plan.width);
}

// The register of a frame gets its old value back.
fn put_back(work: &mut [u32], plan: Plan, at: usize, frame: usize, register: usize)
    requires { (plan.olds + frame < length work.old) × (at + register < length work.old) }
    ensures { work.new ≡ put_back work.old plan at frame register }
{
    work[at + register] = work[plan.olds + frame];
}

// The first thread on the stack, if there is one, with the registers at `at` put back to what they were for it.
pub fn pop(work: &mut [u32], plan: Plan, at: usize, frames: usize) -> Option<Off>
    requires { Stack plan at frames work.old }
    ensures { Popped plan at frames work.old work.new result }
{
    for top in (0..frames).rev() {
        let tag = work[plan.tags + top] as usize;
        if tag < plan.keys {
            return Some(Off {
                key: tag,
                frames: top,
            });
        }
        put_back(work, plan, at, top, tag - plan.keys);
    }
    None
}

// The first active thread, if there is one: the first on the stack, or else the next of this position.
pub fn take(
    work: &mut [u32],
    plan: Plan,
    spot: Spot,
    at: usize,
    index: usize,
    frames: usize,
) -> Option<Taken>
    requires laid { Laid plan spot (length work.old) × Runs plan spot at index × (frames ≤ plan.depth) }
    requires tags { Tags work.old plan frames × Below work.old spot.active spot.threads plan.keys }
    ensures { Took plan spot at index frames work.old work.new result }
{
    if let Some(top) = pop(work, plan, at, frames) {
        return Some(Taken {
            key: top.key,
            at,
            index,
            frames: top.frames,
        });
    }
    if index == spot.threads {
        return None;
    }
    Some(Taken {
        key: work[spot.active + index] as usize,
        at: spot.registers + index * plan.width,
        index: index + 1,
        frames: 0,
    })
}
