// The frame `check CODE PLACES PROGRAM-LENGTH OUTPUT-LENGTH`: what the check answers, with a buffer of so many places.
ghost use Rattle.std.specs.Prelude.{◌≤◌, IfSome};

use crate::answer_line::report;
use crate::places::fill;
use checker::check;
use frames::{MOST_BYTES, MOST_PLACES, ends_with, newline, number_behind, read_bytes};
use std::io;
use std::io::{Read, Write};
use texts::parts::bytes_in;
use texts::place::span_from;

// The solver's code, how many places the buffer has, and how many bytes the two texts.
#[derive(Clone, Copy)]
struct Announced {
    code: u64,
    room: u64,
    program: u64,
    output: u64,
}

// The texts are the program, of this length, and the output behind it.
fn trial(
    out: &mut impl Write,
    texts: &[u8],
    program_len: usize,
    output_len: usize,
    code: u64,
    places: &mut [u16],
) -> io::Result<()> {
    fill(places);
    let program = bytes_in(texts, span_from(0, program_len));
    let output = bytes_in(texts, span_from(program_len, output_len));
    let answer = check(program, output, code, places);
    report(out, answer, places)
}

// The numbers of the frame's first line; none where it is not of this form.
fn numbers(line: &[u8]) -> Option<Announced>
    ensures { IfSome result (λ a. (a.program ≤ 65600) × (a.output ≤ 65600)) }
{
    let code = number_behind(line, 5, u64::MAX)?;
    let room = number_behind(line, code.next, MOST_PLACES)?;
    let program = number_behind(line, room.next, MOST_BYTES)?;
    let output = number_behind(line, program.next, MOST_BYTES)?;
    if !ends_with(line, output) {
        return None;
    }
    Some(Announced {
        code: code.value,
        room: room.value,
        program: program.value,
        output: output.value,
    })
}

// The answer to the frame: false where it is not of this form.
pub fn answer(
    input: &mut impl Read,
    out: &mut impl Write,
    line: &[u8],
    texts: &mut [u8],
    places: &mut [u16],
) -> io::Result<bool> {
    let Some(announced) = numbers(line) else {
        return Ok(false);
    };
    let program_len = announced.program as usize;
    let output_len = announced.output as usize;
    if !read_bytes(input, texts, program_len + output_len)? {
        return Ok(false);
    }
    if !newline(input)? {
        return Ok(false);
    }
    let most = announced.room as usize;
    if places.len() < most {
        return Ok(false);
    }
    trial(
        out,
        texts,
        program_len,
        output_len,
        announced.code,
        &mut places[0..most],
    )?;
    Ok(true)
}
