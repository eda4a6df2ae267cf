// The tests of the laws for a quantifier, T2 to T5, T9 and T10. Its part's own record stands right below its own.
ghost use Rattle.std.specs.Prelude.{◌≡◌};
ghost use Rattle.tidying_laws.specs.Laws.{t2, t5, t9, t10};
ghost use Rattle.tidying_fitting.specs.Fitting.{fits};
ghost use Rattle.table.specs.Stands.{SomePart};
ghost use Rattle.tidying_fitting.specs.Parts.{Tells};
ghost use Rattle.tidying_fitting.specs.Words.{is_over, ranged, is_nested};

use super::{Record, own};
use meaning::limits::NO_MAXIMUM;
use table::QUANTIFIER;

// T2: r{1} and r{0}, with no group.
pub fn once_or_never(table: &[u32], top: usize) -> bool
    requires { SomePart table.now top }
    ensures { Tells result table.now top (fits t2) }
{
    let part = own(table, top);
    part.kind == QUANTIFIER && part.least == part.most && part.least <= 1 && part.highest == 0
}

// Whether a part is a quantifier over a part of a kind.
pub fn over(table: &[u32], top: usize, kind: u32) -> bool
    requires { SomePart table.now top }
    ensures { Tells result table.now top (is_over kind) }
{
    own(table, top).kind == QUANTIFIER && own(table, top - 1).kind == kind
}

// Whether a part is a quantifier of `least` to `most`.
fn ranges(part: Record, least: u32, most: u32) -> bool
    ensures { result ≡ ranged part least most }
{
    part.kind == QUANTIFIER && part.least == least && part.most == most
}

// Whether a part is a quantifier of `least` to `most` over one of 0 to `most`, with no group.
fn nested(table: &[u32], top: usize, least: u32, most: u32) -> bool
    requires { SomePart table.now top }
    ensures { Tells result table.now top (is_nested least most) }
{
    let outer = own(table, top);
    ranges(outer, least, most) && ranges(own(table, top - 1), 0, most) && outer.highest == 0
}

// T5: (?:r*)*, (?:r*?)* and (?:r*?)*?. A lazy loop is one only over a lazy loop.
pub fn loop_of_loop(table: &[u32], top: usize) -> bool
    requires { SomePart table.now top }
    ensures { Tells result table.now top (fits t5) }
{
    nested(table, top, 0, NO_MAXIMUM)
        && (!own(table, top).is_lazy() || own(table, top - 1).is_lazy())
}

// T9: (?:r?)? and (?:r??)??.
pub fn option_of_option(table: &[u32], top: usize) -> bool
    requires { SomePart table.now top }
    ensures { Tells result table.now top (fits t9) }
{
    nested(table, top, 0, 1) && own(table, top).is_lazy() == own(table, top - 1).is_lazy()
}

// T10: (?:r*)+, both greedy.
pub fn loop_once_of_loop(table: &[u32], top: usize) -> bool
    requires { SomePart table.now top }
    ensures { Tells result table.now top (fits t10) }
{
    if !nested(table, top, 1, NO_MAXIMUM) {
        return false;
    }
    let outer = own(table, top);
    let inner = own(table, top - 1);
    !outer.is_lazy() && !inner.is_lazy()
}
