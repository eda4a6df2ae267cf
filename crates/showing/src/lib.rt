// A table shown as pattern bytes: the text of each of its parts. specs/Shown.antt says what is answered for the whole of it, and
// what the room then holds.
#![tactic(auto)]

ghost use Rattle.std.specs.Prelude.{◌≡◌, cond, [], ◌∷◌, ◌*◌, ◌≤◌, ◌<◌, length};
ghost use Rattle.meaning.specs.Limits.{last_assertion};
ghost use Rattle.table.specs.Table.{record_words, operand_word, word_of, assertion_kind};
ghost use Rattle.table.specs.Stands.{SomePart};
ghost use Rattle.reading_atoms.specs.Chars.{question, open_paren, colon};
ghost use Rattle.showing_spelling.specs.Wrote.{Wrote};
ghost use Rattle.showing.specs.Rows.{wraps, close_text, leaf_text};
ghost use Rattle.showing.specs.Writes.{last_at, Writes};

use showing_spelling::Room;
use table::{
    ALTERNATION, ASSERTION, BYTE_SET, EMPTY, GROUP, ITEMS, KIND, OPERAND, QUANTIFIER, SEQUENCE,
    last_words, previous, word,
};

// Whether an item stands in `(?:` and `)`, by the kind of the part and its own.
fn wraps(parent: u32, item: u32) -> bool
    ensures { result ≡ wraps parent item }
{
    match parent {
        SEQUENCE => item == EMPTY || item == ALTERNATION,
        QUANTIFIER => item != BYTE_SET && item != GROUP,
        _ => false,
    }
}

// A byte where it is wanted.
fn put_if(room: &mut Room<'_>, wanted: bool, b: u8)
    ensures { Wrote room.old (cond wanted (b ∷ []) []) room.new }
{
    if wanted {
        room.put(b);
    }
}

// `(?:` where it is wanted.
fn put_opening(room: &mut Room<'_>, wanted: bool)
    ensures { Wrote room.old (cond wanted (open_paren ∷ question ∷ colon ∷ []) []) room.new }
{
    if wanted {
        room.put(b':');
        room.put(b'?');
        room.put(b'(');
    }
}

// What closes a part with items: `)` of a group, or a quantifier.
fn put_close(table: &[u32], top: usize, kind: u32, room: &mut Room<'_>)
    requires { (0 < top) × (record_words * top ≤ length table.now) }
    ensures { Wrote room.old (close_text kind (last_at table.now top)) room.new }
{
    match kind {
        GROUP => room.put(b')'),
        QUANTIFIER => {
            let [least, most, lazy, ..] = last_words(table, top);
            room.put_quantifier(least, most, lazy == 1);
        }
        _ => (),
    }
}

// A part with no items.
fn put_leaf(table: &[u32], top: usize, kind: u32, room: &mut Room<'_>)
    requires { (0 < top) × (record_words * top ≤ length table.now)
        × (kind ≡ assertion_kind → word_of table.now top operand_word ≤ last_assertion) }
    ensures { Wrote room.old
        (leaf_text kind (word_of table.now top operand_word) (last_at table.now top)) room.new }
{
    match kind {
        BYTE_SET => room.put_set(last_words(table, top)),
        ASSERTION => room.put_assertion(word(table, top, OPERAND)),
        _ => (),
    }
}

// The text of the part whose records end at `top`, its items from the last one back.
fn part(table: &[u32], top: usize, room: &mut Room<'_>)
    requires { SomePart table.now top }
    ensures writes { Writes table.now top room.old.out.now room.new.out.now room.old.at room.new.at }
    ensures same { room.new.out.ghost_name ≡ room.old.out.ghost_name }
{
    let kind = word(table, top, KIND);
    if kind <= ASSERTION {
        return put_leaf(table, top, kind, room);
    }
    let items = word(table, top, ITEMS);
    put_close(table, top, kind, room);
    let mut item = top - 1;
    for passed in 0..items {
        let wrap = wraps(kind, word(table, item, KIND));
        let behind = kind == ALTERNATION && 0 < passed;
        put_if(room, behind, b'|');
        put_if(room, wrap, b')');
        part(table, item, room);
        put_opening(room, wrap);
        item = previous(table, item);
    }
    put_if(room, kind == GROUP, b'(');
}
