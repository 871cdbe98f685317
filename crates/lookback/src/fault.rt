// What a person is told of a refusal: one line on standard error, FILE:LINE:COLUMN: refusal N: and what is wrong, which an editor can jump to.
use crate::files::{OUTPUT, PROGRAM, argument, argument_room};
use crate::tell::{number, quoted, say, size};
use crate::{misplaced, quote};
use fields::answer::{Answer, Text};
use std::io;
use std::io::Write;
use std::rt::Env;
use texts::parts::part;
use texts::place::Place;
use texts::refusal::Refused;
use texts::sizes::{
    MOST_ARGUMENTS, MOST_FACTS, MOST_HEADS, MOST_LITERALS, MOST_NAME, MOST_NUMBER, MOST_RULES,
    MOST_TESTED_FACTS, MOST_TEXT, MOST_VARIABLES,
};

// The file as its argument names it, the place in it, and the refusal's number.
fn head(
    rt: &impl Env,
    err: &mut impl Write,
    file: usize,
    place: Place,
    refusal: u8,
) -> io::Result<()> {
    let mut name = argument_room();
    say(err, argument(rt, file, &mut name).unwrap_or(b""))?;
    say(err, b":")?;
    number(err, place.line as u64)?;
    say(err, b":")?;
    number(err, place.column as u64)?;
    say(err, b": refusal ")?;
    number(err, u64::from(refusal))?;
    say(err, b": ")
}

// A size between words.
fn most(err: &mut impl Write, before: &[u8], count: usize, behind: &[u8]) -> io::Result<()> {
    say(err, before)?;
    size(err, count as u64)?;
    say(err, behind)
}

fn long_text(err: &mut impl Write, text: &[u8]) -> io::Result<()> {
    say(err, text)?;
    most(err, b" has more than ", MOST_TEXT, b" bytes")
}

// The first token of a program that can't stand where it does, or the program's end.
fn not_of_rules(err: &mut impl Write, token: &[u8]) -> io::Result<()> {
    if token.is_empty() {
        return say(
            err,
            b"the program ends where its last rule needs more; a rule ends with a dot",
        );
    }
    quoted(err, token)?;
    say(err, b" can't stand here")?;
    // A program's only `%` that starts no comment.
    if token == b"%".as_slice() {
        say(err, b": no comment starts with %*")?;
    }
    if quote::is_alone(token) {
        quote::opens_none(err)?;
    }
    Ok(())
}

fn large_number(err: &mut impl Write, token: &[u8]) -> io::Result<()> {
    say(err, b"the number ")?;
    quoted(err, token)?;
    say(err, b" is over ")?;
    size(err, MOST_NUMBER)
}

// Is it a name, a variable or a string that has too many bytes?
fn is_long(token: &[u8]) -> bool {
    if quote::starts(token) {
        return MOST_NAME + 2 < token.len();
    }
    MOST_NAME < token.len()
}

fn long(err: &mut impl Write, token: &[u8]) -> io::Result<()> {
    quoted(err, token)?;
    if quote::starts(token) {
        return most(
            err,
            b" has more than ",
            MOST_NAME,
            b" bytes between its quotes",
        );
    }
    most(
        err,
        b" is longer than ",
        MOST_NAME,
        b" bytes, the most that a name or a variable has",
    )
}

// What starts with this token is one too many; either text has atoms.
fn too_many(err: &mut impl Write, token: &[u8]) -> io::Result<()> {
    say(err, b"one too many starts at ")?;
    quoted(err, token)?;
    most(
        err,
        b": an atom has at most ",
        MOST_ARGUMENTS,
        b" arguments",
    )
}

fn program_size(err: &mut impl Write, token: &[u8]) -> io::Result<()> {
    if is_long(token) {
        return long(err, token);
    }
    too_many(err, token)?;
    most(err, b", a head ", MOST_HEADS, b" atoms")?;
    most(err, b", a body ", MOST_LITERALS, b" literals")?;
    most(err, b", a rule ", MOST_VARIABLES, b" variables")?;
    most(err, b", a program ", MOST_RULES, b" rules")
}

fn facts_size(err: &mut impl Write, token: &[u8]) -> io::Result<()> {
    if is_long(token) {
        return long(err, token);
    }
    too_many(err, token)?;
    most(err, b", the facts line ", MOST_FACTS, b" facts")
}

fn unbound(err: &mut impl Write, variable: &[u8]) -> io::Result<()> {
    say(err, b"the variable ")?;
    quoted(err, variable)?;
    say(
        err,
        b" is not bound: neither by an atom behind :- without not, nor by an equation",
    )
}

fn out_of_range(err: &mut impl Write, rule: &[u8]) -> io::Result<()> {
    say(err, b"arithmetic leaves the range -")?;
    size(err, MOST_NUMBER)?;
    say(err, b" to ")?;
    size(err, MOST_NUMBER)?;
    say(err, b" in the rule ")?;
    quoted(err, rule)
}

fn repeated(err: &mut impl Write, fact: &[u8]) -> io::Result<()> {
    say(err, b"the fact ")?;
    quoted(err, fact)?;
    say(err, b" repeats an earlier one")
}

fn opposite(err: &mut impl Write, fact: &[u8]) -> io::Result<()> {
    say(err, b"the fact ")?;
    quoted(err, fact)?;
    say(err, b" and an earlier one differ only in sign")
}

fn disagree(err: &mut impl Write) -> io::Result<()> {
    say(
        err,
        b"the solver's code and its report disagree: 10 goes with ANSWER, 20 with INCONSISTENT, 1 with UNKNOWN",
    )
}

fn many_facts(err: &mut impl Write) -> io::Result<()> {
    most(
        err,
        b"the facts line has more than ",
        MOST_TESTED_FACTS,
        b" facts, the most that may stand beside a rule with several heads",
    )
}

fn short(err: &mut impl Write) -> io::Result<()> {
    say(err, b"a lent buffer is too short")
}

// What is wrong with a part of the program. No other number is given for one.
fn program_words(err: &mut impl Write, shown: &[u8], refusal: u8) -> io::Result<()> {
    match refusal {
        1 => long_text(err, b"the program"),
        2 => not_of_rules(err, shown),
        3 => large_number(err, shown),
        4 => program_size(err, shown),
        5 => unbound(err, shown),
        8 => out_of_range(err, shown),
        9 => short(err),
        _ => Ok(()),
    }
}

// What is wrong with a part of the output. No other number is given for one.
fn output_words(err: &mut impl Write, output: &[u8], place: Place, refusal: u8) -> io::Result<()> {
    let shown = part(output, place);
    match refusal {
        1 => long_text(err, b"the output"),
        2 => misplaced::words(err, output, place),
        3 => large_number(err, shown),
        4 => facts_size(err, shown),
        6 => repeated(err, shown),
        7 => opposite(err, shown),
        9 => short(err),
        10 => disagree(err),
        12 => many_facts(err),
        _ => Ok(()),
    }
}

fn of_program(
    rt: &impl Env,
    err: &mut impl Write,
    program: &[u8],
    place: Place,
    refusal: u8,
) -> io::Result<()> {
    head(rt, err, PROGRAM, place, refusal)?;
    program_words(err, part(program, place), refusal)?;
    say(err, b"\n")
}

fn of_output(
    rt: &impl Env,
    err: &mut impl Write,
    output: &[u8],
    place: Place,
    refusal: u8,
) -> io::Result<()> {
    head(rt, err, OUTPUT, place, refusal)?;
    output_words(err, output, place, refusal)?;
    say(err, b"\n")
}

// The line of a refusal of the check. A verdict has none.
pub fn of_check(
    rt: &impl Env,
    err: &mut impl Write,
    program: &[u8],
    output: &[u8],
    answer: Answer,
) -> io::Result<()> {
    let Answer::Refused { number, part } = answer else {
        return Ok(());
    };
    let place = part.place;
    let text = part.text;
    match text {
        Text::Program => of_program(rt, err, program, place, number),
        Text::Output => of_output(rt, err, output, place, number),
    }
}

// The line of a refusal of the writer. A plain form that is written has none.
pub fn of_writer(
    rt: &impl Env,
    err: &mut impl Write,
    program: &[u8],
    written: Result<usize, Refused>,
) -> io::Result<()> {
    match written {
        Ok(_) => Ok(()),
        Err(fault) => of_program(rt, err, program, fault.place, u8::from(fault.refusal)),
    }
}
