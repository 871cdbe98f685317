// Quotes: which tokens start with one, and what is told of one that opens no string.
use crate::tell::say;
use std::io;
use std::io::Write;

// Is the token a string, or a quote alone?
pub fn starts(token: &[u8]) -> bool {
    token.starts_with(b"\"")
}

// Is the token a quote that opens no string?
pub fn is_alone(token: &[u8]) -> bool {
    token == b"\"".as_slice()
}

pub fn opens_none(err: &mut impl Write) -> io::Result<()> {
    say(
        err,
        b": it opens no string; a string ends on its line, and in it a backslash stands before a quote only",
    )
}
