// What a row does to a thread, read from the code's words and the bytes beside a position.
#![tactic(auto)]

ghost use Rattle.std.specs.Prelude.{◌≡◌, ◌+◌, ◌*◌, ◌<◌, ◌≤◌, length};
ghost use Rattle.std.proofs.Math.Option.{none};
ghost use Rattle.sets.specs.Sets.{has, is_word};
ghost use Rattle.meaning.specs.Limits.{row_limit, row_words};
ghost use Rattle.meaning.specs.Text.{passes};
ghost use Rattle.meaning.specs.Bytes.{asserts, at_edge};
ghost use Rattle.machine.specs.Rows.{Row};
ghost use Rattle.machine.specs.Words.{rows_said, row_in};
ghost use Rattle.running_moves.specs.Keys.{keys_of, row_of};
ghost use Rattle.running_moves.specs.Chosen.{byte_limit, byte_of, set_in, chosen};
ghost use Rattle.running_moves.specs.Ready.{Ready};

use machine::{
    ACCEPT, ASSERT, AT_EDGE, AT_END, AT_START, BEGIN, CLOSE, CONSUME, END, FIRST, FORK, JUMP,
    OFF_EDGE, OPEN, RESET, SECOND, SET,
};
use meaning::limits::{NO_BYTE, ROW_WORDS, SET_WORDS};

// What a thread does. A key is row * 2 + flag; a register is numbered from 0, group k's start at 2k and its end at 2k + 1.
#[derive(Drop)]
pub enum Move {
    // It wins.
    Win,
    // It is dropped.
    Lose,
    // It is queued with a key for the next position.
    Eat(usize),
    // It goes on with a key.
    On(usize),
    // It goes two ways, the first choice first.
    Both(usize, usize),
    // It writes the position to a register, and goes on with a key.
    Write(usize, usize),
    // It makes the registers from one on to before another -1, and goes on with a key.
    Wipe(usize, usize, usize),
}

// The flag "has consumed since Begin", as a number.
pub const CLEAR: usize = 0;

pub const CONSUMED: usize = 1;

// Whether byte b is in the set of a row. No other routine tests a byte against a row's set.
pub fn row_has(code: &[u32], row: usize, b: u32) -> bool
    requires { (b < byte_limit) × (row_words * (row + 2) ≤ length code.now) }
    ensures { result ≡ has (set_in code.now row) b }
{
    let from = ROW_WORDS * (row + 1) + SET;
    sets::has(&code[from..from + SET_WORDS], b)
}

// Whether there is a byte, and it is a word byte: A-Z a-z 0-9 or _.
#[tactic(auto, using(crate::proofs::Laws::word_tests, std::proofs::lemmas::Bool::Decides::nat_tests))]
fn is_word(b: u32) -> bool
    ensures { result ≡ passes is_word (byte_of b) }
{
    matches!(b, 0x41..=0x5A | 0x61..=0x7A | 0x30..=0x39 | 0x5F)
}

// Whether one of two bytes is a word byte and the other is not.
fn at_edge(before: u32, after: u32) -> bool
    ensures { result ≡ at_edge (byte_of before) (byte_of after) }
{
    is_word(before) != is_word(after)
}

// Whether an assertion holds between two bytes; no other number does.
#[tactic(auto, using(crate::proofs::Laws::no_byte_lem), unfolding(meaning::specs::Bytes::asserts))]
fn holds(assertion: u32, before: u32, after: u32) -> bool
    ensures { result ≡ asserts assertion (byte_of before) (byte_of after) }
{
    match assertion {
        AT_START => before >= NO_BYTE,
        AT_END => after >= NO_BYTE,
        AT_EDGE => at_edge(before, after),
        OFF_EDGE => !at_edge(before, after),
        _ => false,
    }
}

// What a row of each kind does to the thread of a key.
fn consumed(code: &[u32], key: usize, after: u32) -> Move
    requires { row_words * (row_of key + 2) ≤ length code.now }
    ensures { result ≡ chosen none (byte_of after) key (Row.consume (set_in code.now (row_of key))) }
{
    let row = key / 2;
    if after < NO_BYTE && row_has(code, row, after) {
        Move::Eat((row + 1) * 2 + CONSUMED)
    } else {
        Move::Lose
    }
}

fn jumped(key: usize, target: u32) -> Move
    ensures { result ≡ chosen none none key (Row.jump target) }
{
    Move::On(target as usize * 2 + key % 2)
}

fn forked(key: usize, first: u32, second: u32) -> Move
    ensures { result ≡ chosen none none key (Row.fork first second) }
{
    Move::Both(first as usize * 2 + key % 2, second as usize * 2 + key % 2)
}

fn opened(key: usize, group: u32) -> Move
    requires { key < keys_of row_limit }
    ensures { result ≡ chosen none none key (Row.opens group) }
{
    Move::Write(group as usize * 2, key + 2)
}

fn closed(key: usize, group: u32) -> Move
    requires { key < keys_of row_limit }
    ensures { result ≡ chosen none none key (Row.closes group) }
{
    Move::Write(group as usize * 2 + 1, key + 2)
}

fn reset(key: usize, lowest: u32, highest: u32) -> Move
    requires { key < keys_of row_limit }
    ensures { result ≡ chosen none none key (Row.reset lowest highest) }
{
    Move::Wipe(lowest as usize * 2, (highest as usize + 1) * 2, key + 2)
}

fn begun(key: usize) -> Move
    requires { key < keys_of row_limit }
    ensures { result ≡ chosen none none key Row.begin }
{
    Move::On((key / 2 + 1) * 2 + CLEAR)
}

fn turned_back(key: usize, target: u32) -> Move
    ensures { result ≡ chosen none none key (Row.end target) }
{
    let flag = key % 2;
    if flag == CONSUMED {
        Move::On(target as usize * 2 + flag)
    } else {
        Move::Lose
    }
}

fn asserted(key: usize, assertion: u32, before: u32, after: u32) -> Move
    requires { key < keys_of row_limit }
    ensures { result ≡ chosen (byte_of before) (byte_of after) key (Row.assertion assertion) }
{
    if holds(assertion, before, after) {
        Move::On(key + 2)
    } else {
        Move::Lose
    }
}

// What the row of a key does between two bytes. Each kind has an arm; the last is never reached: the check lists the kinds.
// Both engines' inner loops call it, and where it stays a call of its own a run executes a third more instructions.
#[inline(always)]
#[tactic(auto, using(crate::specs::Ready::row_is))]
pub fn move_of(code: &[u32], before: u32, after: u32, key: usize) -> Move
    requires { Ready code.now × (key < keys_of (rows_said code.now)) }
    ensures { result ≡ chosen (byte_of before) (byte_of after) key (row_in code.now (row_of key)) }
{
    let at = ROW_WORDS * (key / 2 + 1);
    let first = code[at + FIRST];
    let second = code[at + SECOND];
    match code[at] {
        ACCEPT => Move::Win,
        CONSUME => consumed(code, key, after),
        JUMP => jumped(key, first),
        FORK => forked(key, first, second),
        OPEN => opened(key, first),
        CLOSE => closed(key, first),
        RESET => reset(key, first, second),
        BEGIN => begun(key),
        END => turned_back(key, first),
        ASSERT => asserted(key, first, before, after),
        _ => Move::Lose,
    }
}
