// Standard error: words, numbers, sizes as the paper writes them, and bytes of a text shown so that any terminal takes them as one line.
use std::io;
use std::io::{Cursor, Write};

// The most bytes of a part that are shown.
const MOST_SHOWN: usize = 60;

// The digits of the greatest number of 64 bits.
const MOST_DIGITS: usize = 20;

pub fn say(err: &mut impl Write, words: &[u8]) -> io::Result<()> {
    err.write_all(words)
}

pub fn number(err: &mut impl Write, n: u64) -> io::Result<()> {
    write!(err, "{n}")
}

fn one(err: &mut impl Write, byte: u8) -> io::Result<()> {
    let bytes = [byte];
    say(err, &bytes)
}

// A digit, and a comma where the digits behind it are threes. `left` counts it and those.
fn digit(err: &mut impl Write, byte: u8, left: usize) -> io::Result<()> {
    one(err, byte)?;
    if 1 < left && left % 3 == 1 {
        say(err, b",")?;
    }
    Ok(())
}

fn in_threes(err: &mut impl Write, digits: &[u8; MOST_DIGITS], count: usize) -> io::Result<()> {
    for (at, byte) in digits.iter().enumerate().take(count) {
        digit(err, *byte, count - at)?;
    }
    Ok(())
}

// A size with a comma before each three of its digits: 65,536.
pub fn size(err: &mut impl Write, n: u64) -> io::Result<()> {
    let mut digits = Cursor::new([0u8; MOST_DIGITS]);
    write!(digits, "{n}")?;
    let count = digits.position() as usize;
    in_threes(err, digits.get_ref(), count)
}

fn hex(err: &mut impl Write, byte: u8) -> io::Result<()> {
    say(err, b"\\x")?;
    write!(err, "{byte:02x}")
}

// A byte as it is where it is printable ASCII. Any other could end the line, or move the cursor of a terminal.
fn shown(err: &mut impl Write, byte: u8) -> io::Result<()> {
    match byte {
        b'\n' => say(err, b"\\n"),
        b'\t' => say(err, b"\\t"),
        b'\r' => say(err, b"\\r"),
        b' '..=b'~' => one(err, byte),
        _ => hex(err, byte),
    }
}

fn first_shown(err: &mut impl Write, bytes: &[u8]) -> io::Result<()> {
    for byte in bytes.iter().take(MOST_SHOWN) {
        shown(err, *byte)?;
    }
    Ok(())
}

// The bytes between backquotes; of many the first, and two dots.
pub fn quoted(err: &mut impl Write, bytes: &[u8]) -> io::Result<()> {
    say(err, b"`")?;
    first_shown(err, bytes)?;
    if MOST_SHOWN < bytes.len() {
        say(err, b"..")?;
    }
    say(err, b"`")
}
