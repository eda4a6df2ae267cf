// T8 carried out in a table of records (docs/TABLE.md), in place: the leftmost run of alternatives that begin with one byte set
// shares it. Each of them loses the set, and what is left of them is one alternation, which follows the set in a sequence. The
// alternatives are taken from the last one back, so that the records of those before stay as they are.
#![tactic(auto)]

ghost use Rattle.std.specs.Prelude.{◌≡◌, ◌+◌, ◌*◌, ◌≤◌, length};
ghost use Rattle.table.specs.Table.{record_words};
ghost use Rattle.tidying_laws.specs.Laws.{t8};
ghost use Rattle.tidying_rewriting.specs.Rewriting.{SomeFitting, Rewrites};
ghost use Rattle.tidying_sharing.specs.Trims.{SomeTrimming, Trims};
ghost use Rattle.tidying_sharing.specs.Lent.{SomeTrimmingAt, TrimsAt};
ghost use Rattle.tidying_sharing.specs.Runs.{SomeBehind, RunEnds};
ghost use Rattle.tidying_sharing.specs.Shortening.{SomeRunning, Shortens};
ghost use Rattle.tidying_sharing.specs.Located.{SomeSharing, Located};
ghost use Rattle.tidying_sharing.specs.Wraps.{Wraps};

use table::{ALTERNATION, BYTE_SET, EMPTY, ITEMS, KIND, RECORD_WORDS, SEQUENCE, word};
use tidying_fitting::series::{begins_alike, leftmost};
use tidying_fitting::{Want, start};
use tidying_rewriting::rejoin;
use tidying_shapes::{insert, remove, set_items, stamp};

// The records of a run: the number of the first, and where they end.
#[derive(Drop)]
struct Run {
    from: usize,
    stop: usize,
}

// How many records are left, and how many alternatives a trimmed one has become.
#[derive(Drop)]
struct Trimmed {
    n: usize,
    parts: u32,
}

// How many records are left, how many alternatives were trimmed, and how many these have become.
#[derive(Drop)]
struct Shortened {
    n: usize,
    trimmed: u32,
    parts: u32,
}

// An alternative, the first `records` records, loses the set that it begins with: the set alone leaves an empty one, a sequence
// of more than two items one item less, and one of two its second item, or the alternatives of that. Asked: it begins with one.
fn trim(table: &mut [u32], n: usize, records: usize) -> Trimmed
    requires { SomeTrimming table.old n records }
    ensures { Trims table.old table.new n records result.n result.parts }
{
    if records == 1 {
        stamp(table, 0, EMPTY, 0, 0, [0u32; 8]);
        return Trimmed { n, parts: 1 };
    }
    let items = word(table, records, ITEMS);
    if 2 < items {
        set_items(table, records - 1, items - 1);
        remove(table, n, 0, 1);
        return Trimmed { n: n - 1, parts: 1 };
    }
    if word(table, records - 1, KIND) == ALTERNATION {
        let parts = word(table, records - 1, ITEMS);
        remove(table, n, records - 2, 2);
        remove(table, n - 2, 0, 1);
        return Trimmed { n: n - 3, parts };
    }
    remove(table, n, records - 1, 1);
    remove(table, n - 1, 0, 1);
    Trimmed { n: n - 2, parts: 1 }
}

// The alternative whose records are those from `at` to `end` loses its set, and no word before it changes. Asked: it begins with
// a set.
fn trim_at(table: &mut [u32], n: usize, at: usize, end: usize) -> Trimmed
    requires { SomeTrimmingAt table.old n at end }
    ensures { TrimsAt table.old table.new n at end result.n result.parts }
{
    let left = trim(&mut table[RECORD_WORDS * at..], n - at, end - at);
    Trimmed {
        n: at + left.n,
        parts: left.parts,
    }
}

// Where those parts end that follow the one that ends at `first` and begin as it does. Asked: the parts of a series end at
// `top`, and one of them at `first`.
fn run_end(table: &[u32], top: usize, first: usize) -> usize
    requires { SomeBehind table.now top first }
    ensures { RunEnds result table.now top first }
{
    let mut end = top;
    let mut stop = top;
    // Each part's own record says where the part before it ends, so no range counts them.
    while first < end {
        let alike = begins_alike(table, first, end);
        end = start(table, end);
        if !alike {
            stop = end;
        }
    }
    stop
}

// The leftmost run of the part that ends at `top`: the leftmost alternative that begins as its left neighbour does is the run's
// second. Asked: T8 fits the part.
fn leftmost_run(table: &[u32], top: usize) -> Run
    requires { SomeSharing table.now top }
    ensures { Located result.from result.stop table.now top }
{
    let second = leftmost(table, top, Want::Alike).unwrap();
    let first = start(table, second);
    let from = start(table, first);
    Run {
        from,
        stop: run_end(table, top - 1, first),
    }
}

// Each alternative of a run loses the set that it begins with. Asked: the records from `from` to `stop` are a run's.
fn shorten(table: &mut [u32], n: usize, from: usize, stop: usize) -> Shortened
    requires { SomeRunning table.old n from stop }
    ensures { Shortens table.old table.new n from stop result.n result.trimmed result.parts }
{
    let mut end = stop;
    let mut count = n;
    let mut trimmed: u32 = 0;
    let mut parts: u32 = 0;
    // As above: how many alternatives there are is known only when all are passed.
    while from < end {
        let at = start(table, end);
        let left = trim_at(table, count, at, end);
        end = at;
        count = left.n;
        trimmed += 1;
        parts += left.parts;
    }
    Shortened {
        n: count,
        trimmed,
        parts,
    }
}

// The records from `start` to `end` become the alternatives of an alternation that follows a set in a sequence. Asked: they are
// there, and room for three more.
fn wrap(table: &mut [u32], n: usize, start: usize, end: usize, parts: u32, set: [u32; 8]) -> usize
    requires { (start ≤ end) × (end ≤ n) × (record_words * (n + 3) ≤ length table.old) × (length set ≡ 8) }
    ensures { Wraps table.old table.new n start end parts set result }
{
    insert(table, n, end);
    stamp(table, end, SEQUENCE, 0, 2, [0u32; 8]);
    insert(table, n + 1, end);
    stamp(table, end, ALTERNATION, 0, parts, [0u32; 8]);
    insert(table, n + 2, start);
    stamp(table, start, BYTE_SET, 0, 0, set);
    n + 3
}

// T8 at the part that ends at record `top` of `n`. Answers how many records are left. The alternation's own record is
// set before the run is wrapped, so that there is room. Asked: T8 fits the part, and there is room for the result.
pub fn share(table: &mut [u32], n: usize, top: usize) -> usize
    requires { SomeFitting t8 table.old n top }
    ensures { Rewrites t8 table.old table.new n top result }
{
    let items = word(table, top, ITEMS);
    let Run { from, stop } = leftmost_run(table, top);
    let set = table::last_words(table, from + 1);
    let left = shorten(table, n, from, stop);
    let count = rejoin(table, left.n, top + left.n - n, items - left.trimmed + 1);
    wrap(table, count, from, stop + left.n - n, left.parts, set)
}
