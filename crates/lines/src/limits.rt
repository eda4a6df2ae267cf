// The ends of what a run takes. A text longer than any that is taken is a question for the host's tests.
ghost use Rattle.std.specs.Prelude.{◌<◌};

use crate::answers::{ENGINE_WORDS, code_of, run, say_listing, say_number, say_run, say_spans};
use millkettle::{Answer, Refusal};
use std::io;

// A position that 16 bits do not hold.
pub fn far(rt: &impl Print) -> io::Result<()> {
    let mut text = [97u8; 70001];
    text[70000] = 98;
    rt.write_all(b"search 0 b on 70000 a and b")?;
    run(
        rt,
        millkettle::search,
        ENGINE_WORDS,
        &code_of(b"b"),
        &text,
        0,
    )
}

// What is lent to a call on the text `a`, by its lengths: words of the code of `a`, registers or a list, and workspace.
#[derive(Clone, Copy)]
struct Lent {
    code: usize,
    start: usize,
    list: usize,
    workspace: usize,
}

impl Lent {
    fn new(code: usize, start: usize, list: usize, workspace: usize) -> Lent {
        Lent {
            code,
            start,
            list,
            workspace,
        }
    }

    // The call's name and the list's, and the lengths behind them.
    fn say(&self, rt: &impl Print, call: &[u8], list: &[u8]) -> io::Result<()> {
        say_number(rt, call, self.code as u64)?;
        say_number(rt, b" text ", 1)?;
        say_number(rt, b" from ", self.start as u64)?;
        say_number(rt, list, self.list as u64)?;
        say_number(rt, b" workspace ", self.workspace as u64)
    }

    // The call's answer. A workspace has at most 288 words.
    fn call<A, F>(&self, call: F, list: &mut [i32]) -> Option<A>
    where
        F: FnOnce(&[u32], &[u8], usize, &mut [i32], &mut [u32]) -> A,
        requires { F.IsAlwaysCallable call }
    {
        let code = code_of(b"a");
        let mut workspace = [5u32; 288];
        Some(call(
            code.get(..self.code)?,
            b"a",
            self.start,
            list.get_mut(..self.list)?,
            workspace.get_mut(..self.workspace)?,
        ))
    }
}

// All that turns a run away but a long text, and then one thing less in each line: the refusals in order, with both sides of
// each limit.
fn runs_in_order<F>(rt: &impl Print, engine: &[u8], call: F, enough: usize) -> io::Result<()>
where
    F: Fn(&[u32], &[u8], usize, &mut [i32], &mut [u32]) -> Result<Answer, Refusal>,
    requires always { F.IsAlwaysCallable call }
    requires some { 0 < enough }
{
    let few = enough - 1;
    for lent in [
        Lent::new(119, 2, 1, few),
        Lent::new(120, 2, 1, few),
        Lent::new(120, 1, 1, few),
        Lent::new(120, 1, 2, few),
        Lent::new(120, 1, 2, enough),
    ] {
        let mut registers = [7i32; 4];
        rt.write_all(engine)?;
        lent.say(rt, b"match a in code ", b" registers ")?;
        if let Some(answer) = lent.call(&call, &mut registers) {
            say_run(rt, answer)?;
            say_spans(rt, &registers)?;
        }
    }
    Ok(())
}

pub fn in_order(rt: &impl Print) -> io::Result<()> {
    runs_in_order(rt, b"", millkettle::match_at, 288)
}

// The same in order, for the second engine: `a` on a text of one byte needs 9 * 10 * 2 + 2 words.
pub fn plain_in_order(rt: &impl Print) -> io::Result<()> {
    runs_in_order(rt, b"plain ", millkettle::second_match, 182)
}

// The same in order, for every match.
pub fn all_in_order(rt: &impl Print) -> io::Result<()> {
    for lent in [
        Lent::new(119, 2, 1, 287),
        Lent::new(120, 2, 1, 287),
        Lent::new(120, 0, 1, 287),
        Lent::new(120, 0, 1, 288),
        Lent::new(120, 0, 2, 288),
    ] {
        let mut list = [7i32; 8];
        lent.say(rt, b"all of a in code ", b" list ")?;
        if let Some(listing) = lent.call(millkettle::search_all, &mut list) {
            say_listing(rt, listing, &list)?;
        }
    }
    Ok(())
}

// The most groups, around one byte: each of the 64 registers is written.
pub fn groups(rt: &impl Print) -> io::Result<()> {
    let mut table = [0u32; 2048];
    let mut code = [0u32; 864];
    let mut registers = [7i32; 64];
    let mut workspace = [5u32; 37488];
    let pattern = b"(((((((((((((((((((((((((((((((a)))))))))))))))))))))))))))))))";
    let _ = millkettle::compile(pattern, &mut table, &mut code);
    rt.write_all(b"match a in 31 groups on \"a\"")?;
    say_run(
        rt,
        millkettle::match_at(&code, b"a", 0, &mut registers, &mut workspace),
    )?;
    say_spans(rt, &registers)
}

// The second engine's search for `b`, in the words that it needs for the longest text.
fn search_plain(rt: &impl Print, text: &[u8]) -> io::Result<()> {
    let code = code_of(b"b");
    let mut registers = [7i32; 4];
    let mut words = [5u32; 368732];
    say_number(rt, b"plain search 0 b on ", text.len() as u64)?;
    rt.write_all(b" a")?;
    say_run(
        rt,
        millkettle::second_search(&code, text, 0, &mut registers, &mut words),
    )?;
    say_spans(rt, &registers)
}

// The longest text that the second engine takes, and one byte more.
pub fn plain_far(rt: &impl Print) -> io::Result<()> {
    let text = [97u8; 4097];
    search_plain(rt, &text[..4096])?;
    search_plain(rt, &text)
}
