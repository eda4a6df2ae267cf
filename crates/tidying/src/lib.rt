// The tidier, over the table of a pattern's records (docs/TABLE.md), in place: the search for a law ends at the first place
// found, the law is carried out there, and from the beginning again until none fits. `n` is how many records there are, and a
// part is named by the record number at which its records end, `top`.
#![tactic(auto)]

ghost use Rattle.tidying_rewriting.specs.Carried.{Asked, Carries};
ghost use Rattle.tidying_laws.specs.ByNumber.{number_of};
ghost use Rattle.tidying.specs.Search.{SomeSought, Finds, finding_of};
ghost use Rattle.tidying.specs.Held.{SomeHeld, SomeFound, Steps, Tidies};

use reading_items::clear;
use table::RECORD_WORDS;
use tidying_fitting::{Want, law_fits};
use tidying_laws::Law;
use tidying_rewriting::{drop_alternative, drop_empty, unnest, unquantify, void};
use tidying_shapes::{merge, refresh};
use tidying_sharing::share;

// What a search for a law finds: a part and the lowest law that fits it.
#[derive(Clone, Copy)]
struct Found {
    top: usize,
    law: Law,
}

// The first place at which a law fits: each part after the parts inside it, left to right, its lowest law first. What is asked:
// the records of a pattern.
fn search(table: &[u32], n: usize) -> Option<Found>
    requires { SomeSought table.now n }
    ensures { Finds (finding_of result) table.now n }
{
    let mut found = None;
    'search: for top in 1..=n {
        for law in Law::ALL {
            if law_fits(table, top, law) {
                found = Some(Found { top, law });
                break 'search;
            }
        }
    }
    found
}

// A law is carried out at a part. Answers how many records there are then. What is asked: that the law fits the part, and room
// for what it makes.
fn rewrite(table: &mut [u32], n: usize, top: usize, law: Law) -> usize
    requires { Asked (number_of law) table.old n top }
    ensures { Carries (number_of law) table.old table.new n top result }
{
    match law {
        Law::T1 => drop_empty(table, n, top),
        Law::T2 | Law::T3 | Law::T4 | Law::T10 => unquantify(table, n, top),
        Law::T5 | Law::T9 => unnest(table, n, top),
        Law::T6 => drop_alternative(table, n, top, Want::Equal),
        Law::T7 => void(table, n, top),
        Law::T8 => share(table, n, top),
    }
}

// A step: the law is carried out, what it makes joins a series of its own kind, and the derived words are those of the
// pattern that is then there. What is asked: the records of a pattern that was read, and the first place at which a law fits it.
fn step(table: &mut [u32], n: usize, found: Found) -> usize
    requires { SomeFound table.old n found.top (number_of found.law) }
    ensures { Steps table.old table.new n found.top (number_of found.law) result }
{
    let made = rewrite(table, n, found.top, found.law);
    let count = merge(table, made, found.top + made - n - 1);
    refresh(table, count);
    count
}

// Until no law fits, with zeros behind the records. What is asked: the records of a pattern that was read from p bytes, in
// a table of 32(p+1) words.
pub fn tidy(table: &mut [u32], n: usize) -> usize
    requires { SomeHeld table.old n }
    ensures { Tidies table.old table.new n result }
{
    let mut count = n;
    while let Some(found) = search(table, count) {
        count = step(table, count, found);
    }
    clear(table, RECORD_WORDS * count);
    count
}
