// The program's arguments, and the files that they name.
ghost use Rattle.std.specs.Prelude.{◌≤◌, IfOk};

use std::io::{ErrorKind, Read, Write};
use std::rt::{Env, Files};
use std::{io, str};

// The argument that says what is asked for.
pub const WORD: usize = 1;

// The arguments behind it, in their order.
pub const PROGRAM: usize = 2;

pub const OUTPUT: usize = 3;

pub const CODE: usize = 4;

// Room for one byte more than a text may have, so that a longer file is too long here as well.
const ROOM: usize = 65537;

// Room for an argument. It holds any path.
const MOST_PATH: usize = 4096;

// What an output is read from.
#[derive(Drop)]
pub enum Source<F> {
    File(F),
    Stdin,
}

pub fn space() -> [u8; ROOM] {
    [0; ROOM]
}

pub fn argument_room() -> [u8; MOST_PATH] {
    [0; MOST_PATH]
}

pub fn usage(err: &mut impl Write) -> io::Result<()> {
    err.write_all(b"usage: lookback check PROGRAM OUTPUT CODE\n       lookback plain PROGRAM\n")
}

// Argument i, whatever its bytes; there is none where it is missing, or longer than the room.
pub fn argument<'a>(rt: &impl Env, i: usize, room: &'a mut [u8; MOST_PATH]) -> Option<&'a [u8]> {
    match rt.arg(i, room) {
        Ok(n) => Some(&room[..n]),
        Err(_) => None,
    }
}

// Says of a file why it can't be opened.
fn fail(err: &mut impl Write, path: &[u8], error: &io::Error) -> io::Result<()> {
    err.write_all(path)?;
    writeln!(err, ": {error}")
}

// The file of this name. A name that is not UTF-8 opens none.
fn open_named<R: Files>(rt: &R, path: &[u8]) -> io::Result<R::File> {
    match str::from_utf8(path) {
        Ok(name) => std::fs::open(rt, name),
        Err(_) => Err(io::Error::new(ErrorKind::InvalidInput, "the file's name is not UTF-8")),
    }
}

// The open file, or none where it can't be opened, which is said.
fn open<R: Files>(rt: &R, err: &mut impl Write, path: &[u8]) -> io::Result<Option<R::File>> {
    match open_named(rt, path) {
        Ok(file) => Ok(Some(file)),
        Err(error) => {
            fail(err, path, &error)?;
            Ok(None)
        }
    }
}

// Opens the file that argument i names, or says why it can't and answers none.
pub fn open_argument<R: Files + Env>(
    rt: &R,
    err: &mut impl Write,
    i: usize,
) -> io::Result<Option<R::File>> {
    let mut room = argument_room();
    match argument(rt, i, &mut room) {
        Some(path) => open(rt, err, path),
        None => {
            usage(err)?;
            Ok(None)
        }
    }
}

// The same, where `-` names standard input.
// Not a part of its caller, as `number_argument` is none.
#[inline(never)]
pub fn open_output<R: Files + Env>(
    rt: &R,
    err: &mut impl Write,
    i: usize,
) -> io::Result<Option<Source<R::File>>> {
    let mut room = argument_room();
    match argument(rt, i, &mut room) {
        Some(b"-") => Ok(Some(Source::Stdin)),
        Some(path) => match open(rt, err, path)? {
            Some(file) => Ok(Some(Source::File(file))),
            None => Ok(None),
        },
        None => {
            usage(err)?;
            Ok(None)
        }
    }
}

// Reads what an open file holds, as far as there is room: how many bytes that is. A read that a signal interrupts is tried again.
pub fn read_text<R: Read>(input: &mut R, room: &mut [u8; ROOM]) -> io::Result<usize>
    ensures { IfOk result (λ n. n ≤ ROOM) }
{
    let mut filled = 0;
    for _ in 0..u64::MAX {
        match input.read(&mut room[filled..]) {
            Ok(0) => break,
            Ok(n) => filled += n,
            Err(error) if error.kind() == ErrorKind::Interrupted => {}
            Err(error) => return Err(error),
        }
    }
    Ok(filled)
}

// The same of an output.
pub fn read_output<R: Files + Input>(
    rt: &R,
    output: Source<R::File>,
    room: &mut [u8; ROOM],
) -> io::Result<usize>
    ensures { IfOk result (λ n. n ≤ ROOM) }
{
    match output {
        Source::File(mut file) => read_text(&mut file, room),
        Source::Stdin => read_text(&mut rt.reader(), room),
    }
}

fn is_digits(text: &[u8]) -> bool {
    !text.is_empty() && text.iter().all(|byte| byte.is_ascii_digit())
}

// The number that argument i spells, or one that is over its size where it is that large; none where it spells none.
// Not a part of its caller, whose frame would keep the room for the argument.
#[inline(never)]
pub fn number_argument(rt: &impl Env, i: usize) -> Option<u64> {
    let mut room = argument_room();
    let text = argument(rt, i, &mut room)?;
    if !is_digits(text) {
        return None;
    }
    Some(lexis::number::value(text))
}
