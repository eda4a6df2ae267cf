// Questions to the compiler and the engine, whose answers the outline says or a hand counts by its steps. They stand in the file
// `stdin`, two lines each: what is asked, and the text. A line of the output has both, and the answer.
#![tactic(auto)]

mod answers;
mod input;
mod limits;
mod made;
mod questions;
mod readings;

use std::fmt::Display;
use std::io;

// Standard output, where a write that fails is passed over: the next one is tried all the same.
#[derive(Drop)]
struct Heedless<'a>(&'a HostRuntime);

impl Print for Heedless<'_> {
    fn print<D: Display + Drop>(&self, value: D) -> io::Result<()> {
        let _ = self.0.print(value);
        Ok(())
    }

    fn println<D: Display + Drop>(&self, value: D) -> io::Result<()> {
        let _ = self.0.println(value);
        Ok(())
    }

    fn write_all(&self, bytes: &[u8]) -> io::Result<()> {
        let _ = self.0.write_all(bytes);
        Ok(())
    }
}

fn answer(rt: &impl Print, input: &[u8]) -> io::Result<()> {
    questions::ask_all(rt, input)?;
    limits::far(rt)?;
    limits::in_order(rt)?;
    limits::groups(rt)?;
    limits::all_in_order(rt)?;
    limits::plain_far(rt)?;
    limits::plain_in_order(rt)
}

fn main(rt: HostRuntime) {
    let mut text = [0u8; 8192];
    let count = input::read_full(&mut rt.stdin(), &mut text);
    let _ = answer(&Heedless(&rt), &text[..count]);
}
