// The line of what the check answers.
use crate::places::is_kept;
use crate::print::{ending, number, place, refused, say};
use derived_set::{Derived, PLACES};
use fields::answer::{Answer, Part, Text};
use std::io;
use std::io::Write;
use texts::place::TEXT_START;

// A blank and a number of a list.
fn item(out: &mut impl Write, n: u64) -> io::Result<()> {
    say(out, b" ")?;
    number(out, n)
}

// A verdict, and the place that stands where a refusal has its part: empty, at the program's start.
fn title(out: &mut impl Write, name: &[u8]) -> io::Result<()> {
    say(out, name)?;
    place(out, b"program", TEXT_START)
}

// How many places an acceptance writes: one for each atom, and none where no rounds are given.
fn rounds_written(atoms: usize, rounds: usize) -> usize {
    if rounds == 0 { 0 } else { atoms }
}

// The first places, as many as are written.
fn each(out: &mut impl Write, places: &[u16], written: usize) -> io::Result<()> {
    for round in places.iter().take(written) {
        item(out, u64::from(*round))?;
    }
    Ok(())
}

// The set's atoms, by their positions from 1.
fn members(out: &mut impl Write, kept: Derived) -> io::Result<()> {
    for at in 0usize..PLACES {
        if kept.test(at) {
            item(out, at as u64 + 1)?;
        }
    }
    Ok(())
}

// The refusal's number, the text's name, and the place in it.
fn handed_back(out: &mut impl Write, n: u8, part: Part) -> io::Result<()> {
    refused(out, n)?;
    let at = part.place;
    let text = part.text;
    match text {
        Text::Program => place(out, b"program", at),
        Text::Output => place(out, b"output", at),
    }
}

fn accepted(out: &mut impl Write, atoms: usize, rounds: usize, places: &[u16]) -> io::Result<()> {
    title(out, b"ACCEPTED")?;
    say(out, b" atoms ")?;
    number(out, atoms as u64)?;
    say(out, b" rounds ")?;
    number(out, rounds as u64)?;
    say(out, b" each")?;
    each(out, places, rounds_written(atoms, rounds))
}

fn unsatisfied(
    out: &mut impl Write,
    rule: usize,
    positions: &[u64],
    count: usize,
) -> io::Result<()> {
    title(out, b"UNSATISFIED")?;
    say(out, b" rule ")?;
    number(out, rule as u64)?;
    say(out, b" body")?;
    for position in positions.iter().take(count) {
        item(out, *position)?;
    }
    Ok(())
}

fn smaller(out: &mut impl Write, kept: Derived) -> io::Result<()> {
    title(out, b"SMALLER")?;
    say(out, b" atoms")?;
    members(out, kept)
}

// All but the line's end: how many places the answer writes.
fn values(out: &mut impl Write, answer: Answer, places: &[u16]) -> io::Result<usize> {
    match answer {
        Answer::Refused { number, part } => handed_back(out, number, part)?,
        Answer::Accepted { atoms, rounds } => {
            accepted(out, atoms, rounds, places)?;
            return Ok(rounds_written(atoms, rounds));
        }
        Answer::Unsatisfied {
            rule,
            count,
            positions,
        } => unsatisfied(out, rule, &positions, count)?,
        Answer::Smaller { kept } => smaller(out, kept)?,
        Answer::ClaimedNone => title(out, b"CLAIMED-NONE")?,
        Answer::ClaimedUnknown => title(out, b"CLAIMED-UNKNOWN")?,
    }
    Ok(0)
}

pub fn report(out: &mut impl Write, answer: Answer, places: &[u16]) -> io::Result<()> {
    let written = values(out, answer, places)?;
    ending(out, is_kept(places, written))
}
