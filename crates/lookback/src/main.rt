// The program that a person runs: `lookback check PROGRAM OUTPUT CODE` prints the answer of the check, and `lookback plain PROGRAM`
// the plain form of a program; `-` as OUTPUT is standard input. Of a refusal standard error tells the place and what is wrong there. What
// goes wrong with an argument or a file is said there too, and then nothing is printed.
#![tactic(auto)]

use files::{CODE, OUTPUT, PROGRAM, Source, WORD};
use std::io;
use std::io::Write;
use std::rt::{Env, Files};

mod fault;
mod files;
mod misplaced;
mod print;
mod quote;
mod tell;

// The places that are lent: as many as a candidate may have facts.
const PLACES: usize = 1024;

fn places() -> [u16; PLACES] {
    [0; PLACES]
}

// The answer for two texts and a code. What is printed is out before a refusal is told of.
fn check<'a>(
    rt: &impl Env,
    out: &mut impl Write,
    err: &mut impl Write,
    program: &'a [u8],
    output: &'a [u8],
    code: u64,
) -> io::Result<()> {
    let mut rounds = places();
    let answer = checker::check(program, output, code, &mut rounds);
    print::answer(out, answer)?;
    out.flush()?;
    fault::of_check(rt, err, program, output, answer)
}

// The answer for two open files and a code.
fn check_files<R: Env + Files + Input>(
    rt: &R,
    out: &mut impl Write,
    err: &mut impl Write,
    mut program: R::File,
    output: Source<R::File>,
    code: u64,
) -> io::Result<()> {
    let mut text = files::space();
    let mut reported = files::space();
    let n = files::read_text(&mut program, &mut text)?;
    let m = files::read_output(rt, output, &mut reported)?;
    check(rt, out, err, &text[..n], &reported[..m], code)
}

// Not a part of `run`, as `plain_arguments` is none: the tables of the one would stand in the stack beside those of the other.
#[inline(never)]
fn check_arguments<R: Env + Files + Input>(
    rt: &R,
    out: &mut impl Write,
    err: &mut impl Write,
) -> io::Result<()> {
    let Some(code) = files::number_argument(rt, CODE) else {
        return files::usage(err);
    };
    let Some(program) = files::open_argument(rt, err, PROGRAM)? else {
        return Ok(());
    };
    let Some(output) = files::open_output(rt, err, OUTPUT)? else {
        return Ok(());
    };
    check_files(rt, out, err, program, output, code)
}

// The plain form of a text. What is printed is out before a refusal is told of.
fn write(
    rt: &impl Env,
    out: &mut impl Write,
    err: &mut impl Write,
    program: &[u8],
) -> io::Result<()> {
    let mut buffer = files::space();
    let written = plain::write_plain(program, &mut buffer);
    print::plain(out, written, &buffer)?;
    out.flush()?;
    fault::of_writer(rt, err, program, written)
}

#[inline(never)]
fn plain_arguments<R: Env + Files>(
    rt: &R,
    out: &mut impl Write,
    err: &mut impl Write,
) -> io::Result<()> {
    let Some(mut program) = files::open_argument(rt, err, PROGRAM)? else {
        return Ok(());
    };
    let mut text = files::space();
    let n = files::read_text(&mut program, &mut text)?;
    write(rt, out, err, &text[..n])
}

// What the first argument asks for.
enum Task {
    Check,
    Plain,
}

// The room for the argument is given back before the task begins.
#[inline(never)]
fn asked(rt: &impl Env) -> Option<Task> {
    let mut room = files::argument_room();
    match files::argument(rt, WORD, &mut room)? {
        b"check" => Some(Task::Check),
        b"plain" => Some(Task::Plain),
        _ => None,
    }
}

fn run<R: Env + Files + Input>(
    rt: &R,
    out: &mut impl Write,
    err: &mut impl Write,
) -> io::Result<()> {
    match asked(rt) {
        Some(Task::Check) => check_arguments(rt, out, err),
        Some(Task::Plain) => plain_arguments(rt, out, err),
        None => files::usage(err),
    }
}

fn main(rt: HostRuntime) -> io::Result<()> {
    run(&rt, &mut rt.stdout(), &mut rt.stderr())
}
