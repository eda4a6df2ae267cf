// Parts in a series, the items of a sequence or the alternatives of an alternation: flat, and one of a single part is that part.
ghost use Rattle.std.specs.Prelude.{◌≡◌};
ghost use Rattle.table.specs.Stands.{SomePart};
ghost use Rattle.reading_items.specs.Meets.{SomeGathered, Joins, Splices};

use table::{EMPTY, ITEMS, KIND, put, word};

// The top and the number of the parts that a part gives to a series.
#[derive(Clone, Copy, Debug, PartialEq, Eq)]
pub struct Spliced {
    pub top: usize,
    pub items: u32,
}

// A part that is itself a series of the kind gives its own parts, without the record that closed them; any other gives itself.
pub fn splice(table: &[u32], top: usize, kind: u32) -> Spliced
    requires { SomePart table.now top }
    ensures { Splices table.now top kind result }
{
    if word(table, top, KIND) == kind {
        return Spliced {
            top: top - 1,
            items: word(table, top, ITEMS),
        };
    }
    Spliced { top, items: 1 }
}

// The record that joins the parts of a series: an empty part's for none, and for one none.
pub fn joined(table: &mut [u32], top: usize, kind: u32, count: u32) -> usize
    requires { SomeGathered table.old top kind count }
    ensures { Joins table.old table.new top kind count result }
{
    if count == 1 {
        return top;
    }
    if count == 0 {
        put(table, top, EMPTY, 0, 0, [0u32; 8]);
        return top + 1;
    }
    put(table, top, kind, 0, count, [0u32; 8]);
    top + 1
}
