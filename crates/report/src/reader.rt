// A reader of a text's lines. It holds the lent text and its own place, and hands out one line after the other.
ghost use Rattle.std.specs.Prelude.{◌≡◌};
ghost use Rattle.report.specs.Reader.{reader_at, HandsOn, lines_left};

use crate::line::{has_line, line_at, next_line};

#[derive(Clone, Copy)]
pub struct Lines<'a> {
    pub text: &'a [u8],
    pub at: usize,
}

impl<'a> Lines<'a> {
    // A reader of the lines from `at` on.
    pub fn new(text: &'a [u8], at: usize) -> Lines<'a>
        ensures { result ≡ reader_at text.entry at }
    {
        Lines { text, at }
    }
}

// The lines are parts of the lent text without their newlines.
impl<'a> Iterator for Lines<'a> {
    type Item = &'a [u8];

    ghost next_gives = { HandsOn };

    ghost remaining = { lines_left };

    fn next(&mut self) -> Option<&'a [u8]> {
        if !has_line(self.text, self.at) {
            return None;
        }
        let line = line_at(self.text, self.at);
        self.at = next_line(self.text, self.at + line.len());
        Some(line)
    }
}
