// Whether a law of the tidier fits a part of a pattern that stands as records in a table (docs/TABLE.md). A part's own record
// stands right below the record number at which its records end, `top`, on the parts inside it.
#![tactic(auto)]

mod quantifiers; // quantifiers.rt: the tests of T2 to T5, T9 and T10, laws for a quantifier
pub mod series; // series.rt: the tests of T1 and T6 to T8, laws for items and alternatives

ghost use Rattle.std.specs.Prelude.{◌≡◌};
ghost use Rattle.table.specs.Laws.{last_of};
ghost use Rattle.tidying_laws.specs.ByNumber.{law_of, number_of};
ghost use Rattle.tidying_fitting.specs.Fitting.{fits};
ghost use Rattle.table.specs.Stands.{SomePart};
ghost use Rattle.tidying_fitting.specs.Parts.{Tells};
ghost use Rattle.tidying_fitting.specs.Words.{flag_of, own_of, start_of};

use quantifiers::{loop_of_loop, loop_once_of_loop, once_or_never, option_of_option, over};
use series::{has_wanted, void_part};
use table::{
    ALTERNATION, ASSERTION, EMPTY, HIGHEST, ITEMS, KIND, LAZY, LEAST, MOST, RECORDS, SEQUENCE, word,
};
use tidying_laws::Law;

// What a part's own record says: its kind, how many records and items it has, its highest group, and a quantifier's
// counts and laziness.
#[derive(Clone, Copy)]
pub struct Record {
    pub kind: u32,
    pub records: u32,
    pub items: u32,
    pub highest: u32,
    pub least: u32,
    pub most: u32,
    pub lazy: u32,
}

impl Record {
    // Whether it says lazy: 0 is greedy.
    pub fn is_lazy(self) -> bool
        ensures { result ≡ flag_of self.lazy }
    {
        self.lazy != 0
    }
}

// What a law looks for among the parts of a series: T1 an empty item, T6 an alternative without groups that equals an
// earlier one, T7 a set with no byte, T8 an alternative whose first item is the byte set that its left neighbour begins with.
#[derive(Clone, Copy)]
pub enum Want {
    Empty,
    Equal,
    Void,
    Alike,
}

// What the own record of the part that ends at `top` says.
pub fn own(table: &[u32], top: usize) -> Record
    requires { SomePart table.now top }
    ensures { Tells result table.now top own_of }
{
    Record {
        kind: word(table, top, KIND),
        records: word(table, top, RECORDS),
        items: word(table, top, ITEMS),
        highest: word(table, top, HIGHEST),
        least: word(table, top, LEAST),
        most: word(table, top, MOST),
        lazy: word(table, top, LAZY),
    }
}

// The record number at which the part that ends at `top` starts: there the part before it in a series ends.
pub fn start(table: &[u32], top: usize) -> usize
    requires { SomePart table.now top }
    ensures { Tells result table.now top (start_of top) }
{
    let part = own(table, top);
    top - part.records as usize
}

// The last eight words of its own record.
pub fn last_words(table: &[u32], top: usize) -> [u32; 8]
    requires { SomePart table.now top }
    ensures { Tells result table.now top last_of }
{
    table::last_words(table, top)
}

// Whether the law of a number fits the part that ends at `top`. A number that no law has fits nothing.
pub fn fits(table: &[u32], top: usize, law: u32) -> bool
    requires { SomePart table.now top }
    ensures { Tells result table.now top (fits (law_of law)) }
{
    match Law::try_from(law) {
        Ok(law) => law_fits(table, top, law),
        Err(_) => false,
    }
}

// Whether a law fits the part that ends at `top`.
pub fn law_fits(table: &[u32], top: usize, law: Law) -> bool
    requires { SomePart table.now top }
    ensures { Tells result table.now top (fits (law_of (number_of law))) }
{
    match law {
        Law::T1 => has_wanted(table, top, SEQUENCE, Want::Empty),
        Law::T2 => once_or_never(table, top),
        Law::T3 => over(table, top, EMPTY),
        Law::T4 => over(table, top, ASSERTION),
        Law::T5 => loop_of_loop(table, top),
        Law::T6 => has_wanted(table, top, ALTERNATION, Want::Equal),
        Law::T7 => void_part(table, top),
        Law::T8 => has_wanted(table, top, ALTERNATION, Want::Alike),
        Law::T9 => option_of_option(table, top),
        Law::T10 => loop_once_of_loop(table, top),
    }
}
