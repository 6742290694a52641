//! A reader hands out the lines of a text.
ghost use Rattle.std.specs.Prelude.{◌≡◌, ◌+◌, true, length, take, drop};
ghost use Rattle.std.specs.Iterator.{at_most};
ghost use Rattle.text.specs.Checks.{finished};
ghost use Rattle.text.specs.Reading.{Begins, HandsOut, to_come};
ghost use Rattle.text.specs.Split.{before, LinesMake};

use crate::lines::{Line, NEWLINE};
use crate::reader::Reader;

/// The first line of a text, and what follows its end.
fn first_line(text: &[u8]) -> (&[u8], &[u8])
    ensures line { result.0.now ≡ take (before 10 text.now) text.now }
    ensures rest { result.1.now ≡ drop (before 10 text.now + 1) text.now }
{
    match text.iter().position(|b| *b == NEWLINE) {
        Some(n) => (&text[..n], &text[n + 1..]),
        None => (text, &[]),
    }
}

impl<'a> Reader<'a> {
    /// A reader at the start of a text. Where each line is ended, its lines with their ends are the text.
    pub fn new(text: &'a [u8]) -> Reader<'a>
        ensures begins { Begins text.now result }
        ensures lossless { finished text.now ≡ true → LinesMake text.now (to_come result) }
    {
        Reader {
            rest: text,
            line: 0,
        }
    }

    /// The next line, or None at the end of the text.
    pub fn next_line(&mut self) -> Option<Line<'a>>
        ensures { HandsOut self.old result self.new }
    {
        if self.rest.is_empty() {
            return None;
        }
        let (bytes, rest) = first_line(self.rest);
        self.rest = rest;
        self.line += 1;
        Some(Line {
            bytes,
            number: self.line,
        })
    }
}

impl<'a> Iterator for Reader<'a> {
    type Item = Line<'a>;

    ghost next_gives = { HandsOut };

    ghost remaining = { λ reader. at_most (length (to_come reader)) };

    fn next(&mut self) -> Option<Line<'a>> {
        self.next_line()
    }
}
