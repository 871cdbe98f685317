// What is printed, line by line.
use derived_set::{Derived, PLACES};
use fields::answer::Answer;
use std::io;
use std::io::Write;
use texts::refusal::Refused;

fn put(out: &mut impl Write, bytes: &[u8]) -> io::Result<()> {
    out.write_all(bytes)
}

fn number(out: &mut impl Write, n: u64) -> io::Result<()> {
    write!(out, "{n}")
}

// A word, a number and the line's end.
fn line(out: &mut impl Write, word: &[u8], n: u64) -> io::Result<()> {
    put(out, word)?;
    put(out, b" ")?;
    number(out, n)?;
    put(out, b"\n")
}

fn refused(out: &mut impl Write, n: u8) -> io::Result<()> {
    line(out, b"REFUSED", u64::from(n))
}

// The positions of a broken instance, behind its rule.
fn body(out: &mut impl Write, positions: &[u64], count: usize) -> io::Result<()> {
    put(out, b"BODY")?;
    for position in positions.iter().take(count) {
        put(out, b" ")?;
        number(out, *position)?;
    }
    put(out, b"\n")
}

// The positions of the atoms that are kept, rising.
fn atoms(out: &mut impl Write, set: Derived) -> io::Result<()> {
    put(out, b"ATOMS")?;
    for place in 0usize..PLACES {
        if set.test(place) {
            put(out, b" ")?;
            number(out, place as u64 + 1)?;
        }
    }
    put(out, b"\n")
}

fn accepted(out: &mut impl Write, atoms: usize, rounds: usize) -> io::Result<()> {
    put(out, b"VERDICT ACCEPTED\n")?;
    line(out, b"ATOMS", atoms as u64)?;
    line(out, b"ROUNDS", rounds as u64)
}

fn unsatisfied(
    out: &mut impl Write,
    rule: usize,
    positions: &[u64],
    count: usize,
) -> io::Result<()> {
    put(out, b"VERDICT UNSATISFIED\n")?;
    line(out, b"RULE", rule as u64)?;
    body(out, positions, count)
}

fn smaller(out: &mut impl Write, kept: Derived) -> io::Result<()> {
    put(out, b"VERDICT SMALLER\n")?;
    atoms(out, kept)
}

pub fn answer(out: &mut impl Write, answer: Answer) -> io::Result<()> {
    match answer {
        Answer::Refused { number, .. } => refused(out, number),
        Answer::Accepted { atoms, rounds } => accepted(out, atoms, rounds),
        Answer::Unsatisfied {
            rule,
            count,
            positions,
        } => unsatisfied(out, rule, &positions, count),
        Answer::Smaller { kept } => smaller(out, kept),
        Answer::ClaimedNone => put(out, b"VERDICT CLAIMED-NONE\n"),
        Answer::ClaimedUnknown => put(out, b"VERDICT CLAIMED-UNKNOWN\n"),
    }
}

// The plain form at the buffer's start, or the refusal.
pub fn plain(
    out: &mut impl Write,
    written: Result<usize, Refused>,
    buffer: &[u8],
) -> io::Result<()> {
    match written {
        Ok(length) => {
            if let Some(form) = buffer.get(..length) {
                put(out, form)?;
                put(out, b"\n")?;
            }
            Ok(())
        }
        Err(fault) => refused(out, u8::from(fault.refusal)),
    }
}
