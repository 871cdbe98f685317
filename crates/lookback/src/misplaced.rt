// What refusal 2 says of a solver's output: what is missing where it ends, or its facts line does, and what can't stand where it does.
// Which of them it is shows in the line before the fault: reading stops at the first fault, so the lines up to there are right.
use crate::quote;
use crate::tell::{quoted, say};
use report::word::starts_with;
use std::io;
use std::io::Write;
use texts::parts::{bytes_in, part};
use texts::place::{Place, span_from};

// The last line of a text, with its newline where it has one; empty where there is no line.
fn last_line(text: &[u8]) -> &[u8] {
    let length = text.len();
    if length == 0 {
        return text;
    }
    // The last byte is the line's, be it its newline.
    for start in (1..length).rev() {
        if text[start - 1] == b'\n' {
            return &text[start..];
        }
    }
    text
}

// May the line stand around the report, being empty or starting with `%`?
fn is_idle(line: &[u8]) -> bool {
    match line.first() {
        Some(first) => *first == b'\n' || *first == b'%',
        None => true,
    }
}

// Is the line the report's first, with the facts on the next one?
fn is_answer(line: &[u8]) -> bool {
    starts_with(line, b"ANSWER")
}

// What is missing behind this line.
fn missing(err: &mut impl Write, line: &[u8]) -> io::Result<()> {
    if is_idle(line) {
        return say(
            err,
            b"the output ends where a report is needed, a line that starts with ANSWER, INCONSISTENT or UNKNOWN",
        );
    }
    if is_answer(line) {
        return say(
            err,
            b"the output ends where the facts line is needed, the one behind ANSWER",
        );
    }
    say(
        err,
        b"the facts line ends where its last fact needs more; a fact ends with a dot",
    )
}

fn out_of_place(err: &mut impl Write, line: &[u8]) -> io::Result<()> {
    say(err, b"the line ")?;
    quoted(err, line)?;
    say(
        err,
        b" is out of place: around the report stand only empty lines and lines that start with %",
    )
}

fn not_of_facts(err: &mut impl Write, token: &[u8]) -> io::Result<()> {
    quoted(err, token)?;
    say(err, b" can't stand here")?;
    if quote::is_alone(token) {
        return quote::opens_none(err);
    }
    say(
        err,
        b": the facts line has atoms without variables, each with its dot, and no comment",
    )
}

// What is missing or can't stand at a place of the output.
pub fn words(err: &mut impl Write, output: &[u8], place: Place) -> io::Result<()> {
    let line = last_line(bytes_in(output, span_from(0, place.start)));
    if place.len == 0 {
        return missing(err, line);
    }
    // A line out of place is a whole one. The facts line, on which a token may be the first as well, has ANSWER before it.
    if place.column == 1 && !is_answer(line) {
        return out_of_place(err, part(output, place));
    }
    not_of_facts(err, part(output, place))
}
