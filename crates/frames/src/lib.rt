// A frame: the words and numbers of its first line, and the bytes behind it.
#![tactic(auto)]

ghost use Rattle.std.specs.Prelude.{◌≡◌, ◌<◌, ◌≤◌, [], ◌∷◌, ◌++◌, take, drop, IfOk, IfSome};
ghost use Rattle.std.specs.Bool.{OnTrue};
ghost use Rattle.std.specs.Io.KnownBytes.{Consumes};

use std::io;
use std::io::{ErrorKind, Read};
use texts::parts::bytes_in;
use texts::place::span_from;

// The most bytes of a frame's first line.
pub const MOST_LINE: usize = 64;

// The most bytes of a text, and of the writer's buffer.
pub const MOST_BYTES: u64 = 65600;

// The most places of the check's buffer.
pub const MOST_PLACES: u64 = 2048;

// A number of a line, and where it ends.
#[derive(Clone, Copy)]
pub struct Number {
    pub value: u64,
    pub next: usize,
}

// The next byte of the input; none at its end.
fn next_byte<R: Read>(input: &mut R) -> io::Result<Option<u8>>
    ensures { IfOk result (λ next. IfSome next (λ byte. Consumes (R.remaining input.old) (R.remaining input.new) (byte ∷ []))) }
{
    let mut byte = [0u8; 1];
    if !read_bytes(input, &mut byte, 1)? {
        return Ok(None);
    }
    Ok(Some(byte[0]))
}

// Is a newline next?
pub fn newline<R: Read>(input: &mut R) -> io::Result<bool>
    ensures { IfOk result (λ is. OnTrue is (Consumes (R.remaining input.old) (R.remaining input.new) (10 ∷ []))) }
{
    match next_byte(input)? {
        Some(byte) => Ok(byte == b'\n'),
        None => Ok(false),
    }
}

// How long a frame's first line is, without its newline; none where the input ends before it. A line that is too long, or that the
// input ends in, is empty, and so of no known form.
pub fn read_line<R: Read>(input: &mut R, line: &mut [u8; MOST_LINE]) -> io::Result<Option<usize>>
    ensures { IfOk result (λ read. IfSome read (λ len. 0 < len → Consumes (R.remaining input.old) (R.remaining input.new) (take len line.new ++ 10 ∷ []))) }
{
    for len in 0..MOST_LINE {
        match next_byte(input)? {
            None if len == 0 => return Ok(None),
            None => return Ok(Some(0)),
            Some(b'\n') => return Ok(Some(len)),
            Some(byte) => line[len] = byte,
        }
    }
    Ok(Some(0))
}

// The words of a line of this length.
pub fn words(line: &[u8; MOST_LINE], len: usize) -> &[u8]
    ensures { result.now ≡ take len line.now }
{
    bytes_in(line, span_from(0, len))
}

// The number at a place of a line; none where no digit stands there, or where it is over 64 bits.
fn number_at(line: &[u8], at: usize) -> Option<Number> {
    let mut number = None;
    let mut value: u64 = 0;
    for next in at..line.len() {
        let byte = line[next];
        if !byte.is_ascii_digit() {
            break;
        }
        value = value.checked_mul(10)?.checked_add(u64::from(byte - b'0'))?;
        number = Some(Number {
            value,
            next: next + 1,
        });
    }
    number
}

// The number, at most so big, behind a blank at a place of a line.
pub fn number_behind(line: &[u8], at: usize, most: u64) -> Option<Number>
    ensures { IfSome result (λ number. number.value ≤ most) }
{
    if line.len() <= at || line[at] != b' ' {
        return None;
    }
    let number = number_at(line, at + 1)?;
    if most < number.value {
        return None;
    }
    Some(number)
}

// Does the line end with this number?
pub fn ends_with(line: &[u8], last: Number) -> bool {
    last.next == line.len()
}

// Reads n bytes to the start of a text, for which there is room: whether they all came.
pub fn read_bytes<R: Read>(input: &mut R, text: &mut [u8], n: usize) -> io::Result<bool>
    ensures all { IfOk result (λ all. OnTrue all (Consumes (R.remaining input.old) (R.remaining input.new) (take n text.new))) }
    ensures rest { drop n text.new ≡ drop n text.old }
{
    if text.len() < n {
        return Ok(false);
    }
    match input.read_exact(&mut text[0..n]) {
        Ok(()) => Ok(true),
        Err(error) if error.kind() == ErrorKind::UnexpectedEof => Ok(false),
        Err(error) => Err(error),
    }
}
