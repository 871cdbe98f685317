// Runs: bytes of one sort that stand one after the other.
ghost use Rattle.std.specs.Prelude.{◌≡◌, ◌+◌, drop, get_or};
ghost use Rattle.lexis.specs.Run.{is_blank, goes_on};
ghost use Rattle.texts.specs.Prefix.{prefix_len};

use crate::class::{class_of, is_digit, is_word};

// The sorts of bytes that make a run.
#[derive(Clone, Copy)]
pub enum Run {
    // the blanks that may stand on a line
    LineBlanks,
    // what is left of a line, without its newline
    Line,
    Word,
    Digits,
}

// Is the byte a blank: a space, a tab or, in a program, a newline?
#[tactic(auto, unfolding(crate::specs::Run::is_blank))]
pub fn is_blank(byte: u8, program: bool) -> bool
    ensures { result ≡ is_blank program byte }
{
    match byte {
        b' ' | b'\t' => true,
        b'\n' => program,
        _ => false,
    }
}

// Does the byte go on the run?
#[tactic(auto, unfolding(texts::specs::Prefix::in_line))]
fn goes_on(run: Run, byte: u8) -> bool
    ensures { result ≡ goes_on run byte }
{
    match run {
        Run::LineBlanks => is_blank(byte, false),
        Run::Line => byte != b'\n',
        Run::Word => is_word(class_of(byte)),
        Run::Digits => is_digit(class_of(byte)),
    }
}

// The end of the run that starts at `at`: `at` itself where the byte there is of another sort, and past the text's end.
pub fn run_end(text: &[u8], at: usize, run: Run) -> usize
    ensures { result ≡ at + prefix_len (goes_on run) (drop at text.now) }
{
    for end in at..text.len() {
        if !goes_on(run, text[end]) {
            return end;
        }
    }
    at.max(text.len())
}

// The byte at a place, or 0 past the text's end: no token has a byte 0.
pub fn byte_at(text: &[u8], at: usize) -> u8
    ensures { result ≡ get_or text.now at 0 }
{
    if at < text.len() { text[at] } else { 0 }
}
