// The check: a program and a solver's output against the published meaning of an answer set, refusals in their order.
#![tactic(auto)]

ghost use Rattle.names.specs.Numbering.{Empty};
ghost use Rattle.promise.specs.Answered.{Check};
ghost use Rattle.fields.specs.Checked.{Answers};
ghost use Rattle.checker.specs.Standing.{names_of_both};

use fields::answer::{Answer, Text, of_fault};
use filling::{empty_store, fill_rules};
use names::SMALL_TEXT;
use reported::reported;
use texts::parts::bytes_in;
use texts::place::span_from;
use texts::sizes::MOST_TEXT;

mod reported;

// The answer, with a table for the names of both texts.
fn with_names<'a>(
    program: &'a [u8],
    output: &'a [u8],
    code: u64,
    names: &mut [u32],
    places: &mut [u16],
) -> Answer
    requires { Empty (names_of_both program.now output.now) names.old }
    ensures { Answers (Check program.now output.now code places.old) places.old result places.new }
{
    let mut store = empty_store();
    // The size of the output is not known yet, and no name is looked for behind its size.
    let within = bytes_in(output, span_from(0, MOST_TEXT));
    match fill_rules(program, within, names, &mut store) {
        Ok(total) => reported(program, output, code, names, &mut store, total, places),
        Err(fault) => of_fault(Text::Program, fault),
    }
}

// Refusals in their order, else the verdict; with ACCEPTED each atom's round in the places, from the first on, where no rule has several heads.
pub fn check<'a>(program: &'a [u8], output: &'a [u8], code: u64, places: &mut [u16]) -> Answer
    ensures { Answers (Check program.now output.now code places.old) places.old result places.new }
{
    if program.len() <= SMALL_TEXT && output.len() <= SMALL_TEXT {
        let mut names = names::empty_small();
        return with_names(program, output, code, &mut names, places);
    }
    let mut names = names::empty();
    with_names(program, output, code, &mut names, places)
}
