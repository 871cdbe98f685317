// The frame `plain ROOM PROGRAM-LENGTH`: the program's plain form, written into a buffer of that room.
use crate::places::{fill, is_kept};
use crate::print::{ending, number, place, refused, say};
use frames::{MOST_BYTES, ends_with, newline, number_behind, read_bytes};
use plain::write_plain;
use std::io;
use std::io::{Read, Write};
use texts::parts::bytes_in;
use texts::place::{TEXT_START, span_from};
use texts::refusal::Refused;

// A plain form that is written has an empty part, at the program's start.
fn report(out: &mut impl Write, written: Result<usize, Refused>, buffer: &[u8]) -> io::Result<()> {
    match written {
        Ok(length) => {
            say(out, b"WRITTEN")?;
            place(out, b"program", TEXT_START)?;
            say(out, b" length ")?;
            number(out, length as u64)?;
            ending(out, is_kept(buffer, length))?;
            say(out, bytes_in(buffer, span_from(0, length)))?;
            say(out, b"\n")
        }
        Err(fault) => {
            refused(out, u8::from(fault.refusal))?;
            place(out, b"program", fault.place)?;
            ending(out, is_kept(buffer, 0))
        }
    }
}

fn trial(out: &mut impl Write, program: &[u8], buffer: &mut [u8]) -> io::Result<()> {
    fill(buffer);
    let written = write_plain(program, buffer);
    report(out, written, buffer)
}

// The answer to the frame: false where it is not of this form.
pub fn answer(
    input: &mut impl Read,
    out: &mut impl Write,
    line: &[u8],
    texts: &mut [u8],
    buffer: &mut [u8],
) -> io::Result<bool> {
    let Some(room) = number_behind(line, 5, MOST_BYTES) else {
        return Ok(false);
    };
    let Some(length) = number_behind(line, room.next, MOST_BYTES) else {
        return Ok(false);
    };
    if !ends_with(line, length) {
        return Ok(false);
    }
    let most = room.value as usize;
    let n = length.value as usize;
    if !read_bytes(input, texts, n)? {
        return Ok(false);
    }
    if !newline(input)? {
        return Ok(false);
    }
    let program = bytes_in(texts, span_from(0, n));
    if buffer.len() < most {
        return Ok(false);
    }
    trial(out, program, &mut buffer[0..most])?;
    Ok(true)
}
