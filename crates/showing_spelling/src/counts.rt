// The spelling of counts and quantifiers, from the last byte back.
ghost use Rattle.intake_report.specs.Texts.{decimal};
ghost use Rattle.showing_spelling.specs.Wrote.{Wrote};
ghost use Rattle.showing_spelling.specs.Spelling.{most_text, braces_text, counts_text, quantifier_text};

use crate::Room;
use meaning::limits::NO_MAXIMUM;

impl Room<'_> {
    // A number in decimal, from its last digit back.
    fn put_decimal(&mut self, value: u32)
        ensures { Wrote self.old (decimal value) self.new }
    {
        let mut left = value;
        while 10 <= left {
            self.put(b'0' + (left % 10) as u8);
            left /= 10;
        }
        self.put(b'0' + left as u8);
    }

    // What stands in braces behind the minimum: nothing where the maximum is the same, a comma, and the maximum if there is one.
    fn put_most(&mut self, least: u32, most: u32)
        ensures { Wrote self.old (most_text least most) self.new }
    {
        if most == least {
            return;
        }
        if most != NO_MAXIMUM {
            self.put_decimal(most);
        }
        self.put(b',');
    }

    // Counts in braces.
    fn put_braces(&mut self, least: u32, most: u32)
        ensures { Wrote self.old (braces_text least most) self.new }
    {
        self.put(b'}');
        self.put_most(least, most);
        self.put_decimal(least);
        self.put(b'{');
    }

    // Counts: * + ? where they say it, else in braces.
    fn put_counts(&mut self, least: u32, most: u32)
        ensures { Wrote self.old (counts_text least most) self.new }
    {
        match (least, most) {
            (0, NO_MAXIMUM) => self.put(b'*'),
            (1, NO_MAXIMUM) => self.put(b'+'),
            (0, 1) => self.put(b'?'),
            _ => self.put_braces(least, most),
        }
    }

    // A quantifier: its counts, and then `?` if it is `lazy`, which is the quantifier's own word.
    pub fn put_quantifier(&mut self, least: u32, most: u32, lazy: bool)
        ensures { Wrote self.old (quantifier_text least most lazy) self.new }
    {
        if lazy {
            self.put(b'?');
        }
        self.put_counts(least, most);
    }
}
