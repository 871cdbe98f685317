// Where the rules of a program stand: each from its first token to its dot.
#![tactic(auto)]

ghost use Rattle.std.specs.Prelude.{◌≡◌, false};
ghost use Rattle.texts.specs.Place.{Stands};
ghost use Rattle.syntax.specs.Text.{placed_from, end_of};
ghost use Rattle.rule_places.specs.Sentences.{dot_end, to_dot, sentence};

use lexis::kind::{DOT, END};
use syntax::token::token_at;
use texts::place::{Place, TEXT_START, past, with_len};

// Behind the first dot from `at` on; at the text's end where there is none.
fn dot_end(text: &[u8], at: Place) -> Place
    requires { Stands text.now at }
    ensures { (result.start ≡ dot_end (end_of text.now) (placed_from false text.now at.start)) × Stands text.now result }
{
    let mut next = at;
    'reading: loop {
        let token = token_at(text, next, false);
        let end = past(token.place);
        if token.kind == END {
            return token.place;
        }
        if token.kind == DOT {
            return end;
        }
        next = end;
    }
}

// From the first token at or after `at` to the first dot; empty at the text's end where there is no token.
fn to_dot(text: &[u8], at: Place) -> Place
    requires { Stands text.now at }
    ensures { result ≡ to_dot (end_of text.now) (placed_from false text.now at.start) }
{
    let token = token_at(text, at, false);
    let place = token.place;
    if token.kind == END {
        return place;
    }
    let end = dot_end(text, at);
    with_len(place, end.start - place.start)
}

// Rule `k` of a program, counted from 0.
pub fn rule_place(text: &[u8], k: usize) -> Place
    ensures { result ≡ sentence false text.now k }
{
    let mut at = TEXT_START;
    for _ in 0..k {
        at = dot_end(text, at);
    }
    to_dot(text, at)
}
