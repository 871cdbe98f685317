// A program's text, read once: its rules in the tables and their number, or the refusal and its place.
#![tactic(auto)]

ghost use Rattle.std.specs.Prelude.{◌≡◌, ◌≤◌, length};
ghost use Rattle.texts.specs.Sizes.{most_text};
ghost use Rattle.program.specs.Rules.{Fillable};
ghost use Rattle.program.specs.Answer.{finished, ReadsProgram};

use crate::put::{RuleStart, put_rule};
use texts::place::{Place, TEXT_START};
use texts::places::PLACE;
use texts::refusal::{Refusal, Refused};
use texts::sizes::{MOST_RULES, MOST_TEXT, MOST_VARIABLES};

pub mod put;
pub mod space;

// At the end of the text: the variable that is not bound, or the number of rules.
fn finished(unbound: Option<Place>, count: usize) -> Result<usize, Refused>
    ensures { result ≡ finished unbound count }
{
    match unbound {
        None => Ok(count),
        Some(place) => Err(Refused {
            refusal: Refusal::Unbound,
            place,
        }),
    }
}

// Of a program that is not over its size: the leftmost of 2, 3 and 4; then 5 at the leftmost first occurrence of a variable that is not
// bound. Rule k has row k of the rules, and its literals have theirs.
fn read_rules<'a>(
    program: &'a [u8],
    output: &'a [u8],
    names: &mut [u32],
    rules: &mut [u64],
    literals: &mut [u64],
) -> Result<usize, Refused>
    requires { (length program.now ≤ most_text) × Fillable program.now output.now names.old rules.old literals.old }
    ensures { ReadsProgram program.now output.now names.old rules.old literals.old result names.new rules.new literals.new }
{
    let mut places = [0u32; MOST_VARIABLES * PLACE];
    let mut unbound: Option<Place> = None;
    let mut at = TEXT_START;
    let mut count = 0;
    loop {
        let start = RuleStart {
            at,
            number: count,
            over: MOST_RULES <= count,
        };
        let Some(rule) = put_rule(program, output, names, &mut places, rules, literals, start)?
        else {
            return finished(unbound, count);
        };
        // What is found first stays: the first unbound variable of a later rule stands behind it.
        unbound = unbound.or(rule.unbound);
        at = rule.behind;
        count += 1;
    }
}

// 1, with nothing touched; then what the rules answer.
pub fn read_program<'a>(
    program: &'a [u8],
    output: &'a [u8],
    names: &mut [u32],
    rules: &mut [u64],
    literals: &mut [u64],
) -> Result<usize, Refused>
    requires { Fillable program.now output.now names.old rules.old literals.old }
    ensures { ReadsProgram program.now output.now names.old rules.old literals.old result names.new rules.new literals.new }
{
    if MOST_TEXT < program.len() {
        return Err(Refused {
            refusal: Refusal::LongText,
            place: TEXT_START,
        });
    }
    read_rules(program, output, names, rules, literals)
}
