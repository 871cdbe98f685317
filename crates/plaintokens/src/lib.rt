// A text's tokens to the bytes of its plain form, written into a lent buffer as they are read.
#![tactic(auto)]

ghost use Rattle.std.specs.Prelude.{◌≡◌, cond, ◌++◌};
ghost use Rattle.plaintokens.specs.Put.{Room, Put};
ghost use Rattle.plaintokens.specs.Promise.{Readable, PutsPlain};
ghost use Rattle.plaintokens.specs.Neighbours.{blank_between};
ghost use Rattle.plaintokens.specs.PlainText.{spelled, unless};

use lexis::kind::{ALSO_UNEQUAL, DOT, END};
use lexis::run::byte_at;
use neighbours::{left_out, runs_together};
use put::{put_byte, put_bytes};
use syntax::token::{TokenRead, token_at};
use texts::parts::part;
use texts::place::{TEXT_START, past};

mod neighbours;
mod put;

// The blank between two tokens, where they want one.
fn put_blank(buffer: &mut [u8], at: usize, last: u8, here: u8) -> usize
    requires { Room at (blank_between last here) }
    ensures { Put buffer.old at (blank_between last here) result buffer.new }
{
    if runs_together(last, here) {
        return put_byte(buffer, at, b' ');
    }
    at
}

// A token as it stands in the text, and `!=` for `<>`.
fn put_spelled(buffer: &mut [u8], at: usize, text: &[u8], token: TokenRead) -> usize
    requires { Room at (spelled text.now token) }
    ensures { Put buffer.old at (spelled text.now token) result buffer.new }
{
    if token.kind == ALSO_UNEQUAL {
        return put_bytes(buffer, at, b"!=");
    }
    let place = token.place;
    put_bytes(buffer, at, part(text, place))
}

// A token behind the last one written, unless it is left out.
fn put_token(
    buffer: &mut [u8],
    at: usize,
    text: &[u8],
    last: u8,
    token: TokenRead,
    out: bool,
) -> usize
    requires { Room at (unless out (blank_between last token.kind ++ spelled text.now token)) }
    ensures { Put buffer.old at (unless out (blank_between last token.kind ++ spelled text.now token)) result buffer.new }
{
    if out {
        return at;
    }
    let next = put_blank(buffer, at, last, token.kind);
    put_spelled(buffer, next, text, token)
}

// The kind of the last token written, which is not the token before where that one is left out.
fn latest(last: u8, here: u8, out: bool) -> u8
    ensures { result ≡ cond out last here }
{
    if out {
        return last;
    }
    here
}

// The plain form of a program, as far as the buffer reaches; its length. The first token stands as behind a rule's end.
pub fn write_tokens(buffer: &mut [u8], text: &[u8]) -> usize
    requires { Readable text.now }
    ensures { PutsPlain text.now buffer.old result buffer.new }
{
    let mut before = DOT;
    let mut last = DOT;
    let mut next = 0;
    let mut token = token_at(text, TEXT_START, false);
    while token.kind != END {
        let behind = token_at(text, past(token.place), false);
        let start = behind.place.start;
        let out = left_out(before, token.kind, behind.kind, byte_at(text, start));
        next = put_token(buffer, next, text, last, token, out);
        last = latest(last, token.kind, out);
        before = token.kind;
        token = behind;
    }
    next
}
