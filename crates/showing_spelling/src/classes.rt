// The spelling of a byte set, from the last byte back: the dot, a set escape, one byte, or the shortest class.
ghost use Rattle.std.specs.Prelude.{◌≡◌, ◌≤◌, ◌<◌, unwrap_or};
ghost use Rattle.sets.specs.Sets.{has};
ghost use Rattle.showing_spelling.specs.Wrote.{Wrote};
ghost use Rattle.showing_spelling.specs.Spelling.{run_text, runs_of, contains, lacking, escape_text, inside_text, class_text};
ghost use Rattle.showing_spelling.specs.Spelling.{either_text, best_text, escape_of, lowest, words_in, spaces_in, named_text};
ghost use Rattle.showing_spelling.specs.Spelling.{plain_text, set_text};
ghost use Rattle.showing_spelling.specs.Escapes.{or_six};

use crate::Room;
use crate::escapes::Escape;

// Whether a set holds all that a set escape takes.
fn contains(set: [u32; 8], escape: Escape) -> bool
    ensures { result ≡ contains set escape.number }
{
    sets::same(sets::union(set, escape.set()), set)
}

// A set without what a set escape takes.
fn lacking(set: [u32; 8], escape: Option<Escape>) -> [u32; 8]
    ensures { result ≡ lacking set (or_six escape) }
{
    match escape {
        Some(e) => sets::complement(sets::union(sets::complement(set), e.set())),
        None => set,
    }
}

// Which of `\w` and `\d` a set holds all of.
fn words_in(set: [u32; 8]) -> Option<Escape>
    ensures { or_six result ≡ words_in set }
{
    let words = Escape { number: 2 };
    if contains(set, words) {
        return Some(words);
    }
    let digits = Escape { number: 0 };
    contains(set, digits).then_some(digits)
}

// `\s`, if a set holds all of it.
fn spaces_in(set: [u32; 8]) -> Option<Escape>
    ensures { or_six result ≡ spaces_in set }
{
    let spaces = Escape { number: 4 };
    contains(set, spaces).then_some(spaces)
}

// The set escape that takes just these bytes.
fn escape_of(set: [u32; 8]) -> Option<Escape>
    ensures { or_six result ≡ escape_of set 6 0 }
{
    for number in 0..6 {
        let escape = Escape { number };
        if sets::same(set, escape.set()) {
            return Some(escape);
        }
    }
    None
}

// The lowest byte of a set.
fn lowest(set: [u32; 8]) -> Option<u8>
    ensures { unwrap_or result 256 ≡ lowest (has set) 256 256 }
{
    for b in 0..=255 {
        if sets::has(&set, u32::from(b)) {
            return Some(b);
        }
    }
    None
}

impl Room<'_> {
    // The bytes from `first` to before `last`: one or two are themselves, more are a range.
    fn put_run(&mut self, first: usize, last: usize)
        requires { (first ≤ last) × (last ≤ 256) }
        ensures { Wrote self.old (run_text first last) self.new }
    {
        if last <= first {
            return;
        }
        self.put_byte(true, (last - 1) as u8);
        match last - first {
            1 => (),
            2 => self.put_byte(true, first as u8),
            _ => {
                self.put(b'-');
                self.put_byte(true, first as u8);
            }
        }
    }

    // The runs of a set, from the highest byte down: `last` is where the run that is open ends.
    fn put_runs(&mut self, set: [u32; 8])
        ensures { Wrote self.old (runs_of set) self.new }
    {
        let mut last = 256;
        for n in (0..256).rev() {
            if !sets::has(&set, n as u32) {
                self.put_run(n + 1, last);
                last = n;
            }
        }
        self.put_run(0, last);
    }

    // A set escape, if there is one.
    fn put_escape(&mut self, escape: Option<Escape>)
        ensures { Wrote self.old (escape_text (or_six escape)) self.new }
    {
        if let Some(e) = escape {
            self.put_escaped(e.letter());
        }
    }

    // What stands in a class for a set: names, and then the runs of the rest.
    fn put_named(&mut self, set: [u32; 8], words: Option<Escape>, spaces: Option<Escape>)
        ensures { Wrote self.old (named_text set (or_six words) (or_six spaces)) self.new }
    {
        self.put_runs(lacking(lacking(set, words), spaces));
        self.put_escape(spaces);
        self.put_escape(words);
    }

    // With names or without. `named` and `negated` say which text is written, here and below, as the specs' do.
    fn put_inside(&mut self, set: [u32; 8], named: bool)
        ensures { Wrote self.old (inside_text named set) self.new }
    {
        if named {
            self.put_named(set, words_in(set), spaces_in(set));
        } else {
            self.put_named(set, None, None);
        }
    }

    // A class that lists a set, or one that lists what it lacks.
    fn put_class(&mut self, negated: bool, named: bool, set: [u32; 8])
        ensures { Wrote self.old (class_text negated named set) self.new }
    {
        self.put(b']');
        self.put_inside(set, named);
        if negated {
            self.put(b'^');
        }
        self.put(b'[');
    }

    // The shorter of the class that lists a set and the one that lists what it lacks: the one that begins later.
    fn put_either(&mut self, named: bool, set: [u32; 8])
        ensures { Wrote self.old (either_text named set) self.new }
    {
        let end = self.at;
        let others = sets::complement(set);
        self.put_class(true, named, others);
        let second = self.at;
        self.at = end;
        self.put_class(false, named, set);
        if self.at < second {
            self.at = end;
            self.put_class(true, named, others);
        }
    }

    // The shortest class, without names or with them. As `put_either` over other texts: a function over both would take two
    // closures that write in the room, and say of each what it writes.
    fn put_best(&mut self, set: [u32; 8])
        ensures { Wrote self.old (best_text set) self.new }
    {
        let end = self.at;
        self.put_either(true, set);
        let named = self.at;
        self.at = end;
        self.put_either(false, set);
        if self.at < named {
            self.at = end;
            self.put_either(true, set);
        }
    }

    // A byte set that is no dot and no set escape: one byte, or a class.
    fn put_plain(&mut self, set: [u32; 8])
        ensures { Wrote self.old (plain_text set) self.new }
    {
        match lowest(set) {
            Some(b) if sets::same(set, sets::one(b)) => self.put_byte(false, b),
            _ => self.put_best(set),
        }
    }

    // A byte set: the dot, a set escape, one byte, or a class.
    pub fn put_set(&mut self, set: [u32; 8])
        ensures { Wrote self.old (set_text set) self.new }
    {
        if sets::same(set, sets::dot()) {
            return self.put(b'.');
        }
        match escape_of(set) {
            Some(escape) => self.put_escaped(escape.letter()),
            None => self.put_plain(set),
        }
    }
}
