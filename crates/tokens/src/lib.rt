// Bytes to tokens: blanks and comments, and the longest token at a place, with its line and column.
#![tactic(auto)]

ghost use Rattle.std.specs.Prelude.{◌≡◌, false, ◌+◌, ◌<◌, length, drop};
ghost use Rattle.texts.specs.Place.{Stands};
ghost use Rattle.lexis.specs.Strings.{closing};
ghost use Rattle.tokens.specs.Token.{standing, mark_at, string_at, other_at, token_at, next_token};

use lexis::class::{Class, class_of};
use lexis::kind::{Kind, name_kind, pair_kind, single_kind};
use lexis::run::{Run, byte_at, run_end};
use lexis::string::closing;
use texts::place::{Place, with_len};

mod gap;

// A token: what it is, and where it stands.
#[derive(Clone, Copy)]
pub struct Token {
    pub kind: Kind,
    pub place: Place,
}

// A token of a kind and a length, where it stands.
fn placed(kind: Kind, at: Place, len: usize) -> Token
    ensures { result ≡ standing kind at len }
{
    Token {
        kind,
        place: with_len(at, len),
    }
}

// The mark that starts at `at` with the byte `first`, where `second` comes after it: of two bytes where there is such a one.
#[tactic(auto, unfolding(crate::specs::Token::mark_at))]
fn mark_at(at: Place, first: u8, second: u8) -> Token
    ensures { result ≡ mark_at at first second }
{
    let pair = pair_kind(first, second);
    if pair == Kind::Stray {
        return placed(single_kind(first), at, 1);
    }
    placed(pair, at, 2)
}

// The string that the quote at `at` opens, or that quote alone where it opens none.
#[tactic(auto, unfolding(crate::specs::Token::string_at))]
fn string_at(text: &[u8], at: Place) -> Token
    requires { at.start < length text.now }
    ensures { result ≡ string_at at (closing false (drop (at.start + 1) text.now)) }
{
    match closing(text, at.start + 1) {
        Some(end) => placed(Kind::String, at, end + 1),
        None => placed(Kind::Stray, at, 1),
    }
}

// The string or the mark that starts at `at` with the byte `first`.
#[tactic(auto, unfolding(crate::specs::Token::other_at))]
fn other_at(text: &[u8], at: Place, first: u8) -> Token
    requires { at.start < length text.now }
    ensures { result ≡ other_at at first (drop (at.start + 1) text.now) }
{
    if first == b'"' {
        return string_at(text, at);
    }
    mark_at(at, first, byte_at(text, at.start + 1))
}

// The longest token that starts at `at`, or one stray byte; the end at the text's length.
fn token_at(text: &[u8], at: Place) -> Token
    requires { Stands text.now at }
    ensures { result ≡ token_at text.now at.start }
{
    let byte = at.start;
    if text.len() <= byte {
        let end = Place {
            start: text.len(),
            len: 0,
            line: at.line,
            column: at.column,
        };
        return placed(Kind::End, end, 0);
    }
    let first = text[byte];
    let next = byte + 1;
    match class_of(first) {
        Class::Lower => {
            let len = run_end(text, next, Run::Word) - byte;
            let kind = name_kind(len, first, byte_at(text, next), byte_at(text, next + 1));
            placed(kind, at, len)
        }
        Class::Upper => {
            let len = run_end(text, next, Run::Word) - byte;
            placed(Kind::Variable, at, len)
        }
        Class::Digit => {
            if first == b'0' {
                return placed(Kind::Number, at, 1);
            }
            let len = run_end(text, next, Run::Digits) - byte;
            placed(Kind::Number, at, len)
        }
        Class::Underscore => placed(Kind::Anonymous, at, 1),
        Class::Other => other_at(text, at, first),
    }
}

// The first token at or after `at`, in a program or on a facts line. At `%*`, and on a facts line, a `%` is a stray byte, and so is
// a newline there. At the end of the text the token is `End`, empty at the text's length.
#[tactic(auto, unfolding(crate::specs::Token::next_token))]
pub fn next_token(text: &[u8], at: Place, program: bool) -> Token
    requires { Stands text.now at }
    ensures { result ≡ next_token program text.now at.start }
{
    token_at(text, gap::gap_end(text, at, program))
}
