// An answer's words, numbers and places, on standard output.
use std::io;
use std::io::Write;
use texts::place::Place;

pub fn say(out: &mut impl Write, words: &[u8]) -> io::Result<()> {
    out.write_all(words)
}

pub fn number(out: &mut impl Write, n: u64) -> io::Result<()> {
    write!(out, "{n}")
}

// A place of the text with this name.
pub fn place(out: &mut impl Write, text: &[u8], place: Place) -> io::Result<()> {
    say(out, b" ")?;
    say(out, text)?;
    say(out, b" ")?;
    number(out, place.start as u64)?;
    say(out, b" ")?;
    number(out, place.len as u64)?;
    say(out, b" ")?;
    number(out, place.line as u64)?;
    say(out, b" ")?;
    number(out, place.column as u64)
}

// The line's last word: whether what the answer does not write is as it was.
pub fn ending(out: &mut impl Write, kept: bool) -> io::Result<()> {
    if kept {
        return say(out, b" kept\n");
    }
    say(out, b" touched\n")
}

pub fn refused(out: &mut impl Write, n: u8) -> io::Result<()> {
    say(out, b"REFUSED ")?;
    number(out, u64::from(n))
}
