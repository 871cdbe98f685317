// Many cases in one run: reads frames from standard input until it ends, and writes an answer for each. A frame is a line of words
// and numbers and the bytes that it announces; the run ends with the line BAD FRAME at one that is of no known form.
#![tactic(auto)]

use frames::{MOST_LINE, read_line, words};
use print::say;
use report::word::starts_with;
use std::io;
use std::io::{Read, Write};

mod answer_line;
mod check_frame;
mod places;
mod plain_frame;
mod print;

// Room for the two texts of a frame.
fn texts_room() -> [u8; 131200] {
    [0; 131200]
}

// The writer's buffer of the most bytes that a frame may announce.
fn buffer_room() -> [u8; 65600] {
    [0; 65600]
}

// The check's buffer of the most places that a frame may announce.
fn places_room() -> [u16; 2048] {
    [0; 2048]
}

// The answer to a frame with this first line: false where it is of no known form.
fn answer(
    input: &mut impl Read,
    out: &mut impl Write,
    line: &[u8],
    texts: &mut [u8],
    buffer: &mut [u8],
    places: &mut [u16],
) -> io::Result<bool> {
    if starts_with(line, b"check ") {
        return check_frame::answer(input, out, line, texts, places);
    }
    if starts_with(line, b"plain ") {
        return plain_frame::answer(input, out, line, texts, buffer);
    }
    Ok(false)
}

// One frame: false where the input ends, or the frame is of no known form. What it prints is handed on before the next frame is waited for.
fn one(
    input: &mut impl Read,
    out: &mut impl Write,
    texts: &mut [u8],
    buffer: &mut [u8],
    places: &mut [u16],
) -> io::Result<bool> {
    let mut line = [0u8; MOST_LINE];
    let Some(len) = read_line(input, &mut line)? else {
        return Ok(false);
    };
    let known = answer(input, out, words(&line, len), texts, buffer, places)?;
    if !known {
        say(out, b"BAD FRAME\n")?;
    }
    out.flush()?;
    Ok(known)
}

// A proved loop ends, and nothing says that the input does: so it counts its turns.
fn all(
    input: &mut impl Read,
    out: &mut impl Write,
    texts: &mut [u8],
    buffer: &mut [u8],
    places: &mut [u16],
) -> io::Result<()> {
    for _ in 0..u64::MAX {
        if !one(input, out, texts, buffer, places)? {
            break;
        }
    }
    Ok(())
}

fn main(rt: HostRuntime) -> io::Result<()> {
    let mut texts = texts_room();
    let mut buffer = buffer_room();
    let mut places = places_room();
    all(
        &mut rt.stdin(),
        &mut rt.stdout(),
        &mut texts,
        &mut buffer,
        &mut places,
    )
}
