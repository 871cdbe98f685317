// Behind a program that is read: the solver's output, its code, and then what it reports.
ghost use Rattle.checker.specs.Standing.{WithRules, AnswersRules};

use candidate::settled::Counts;
use candidate::{put_facts, with_facts};
use fields::answer::{Answer, Text, of_fault};
use output::read_output;
use report::word::{Word, agrees};
use tables::FACT;
use texts::place::TEXT_START;
use texts::refusal::{Refusal, Refused};
use texts::sizes::MOST_FACTS;

// The refusal where the solver's code and its report disagree.
const DISAGREE: Refused = Refused {
    refusal: Refusal::Disagreement,
    place: TEXT_START,
};

// The numbers of the facts' rows.
const FACTS: usize = MOST_FACTS * FACT;

fn fact_table() -> [u64; FACTS] {
    [0; FACTS]
}

// The answer with the program's rules in the store.
pub fn reported<'a>(
    program: &'a [u8],
    output: &'a [u8],
    code: u64,
    names: &mut [u32],
    store: &mut [u64],
    total: usize,
    places: &mut [u16],
) -> Answer
    requires { WithRules program.now output.now names.old store.old total }
    ensures { AnswersRules program.now output.now code names.old store.old total places.old result places.new }
{
    let mut facts = fact_table();
    let mut predicates = [0u64; MOST_FACTS];
    let mut starts = [0u32; MOST_FACTS];
    let mut lengths = [0u32; MOST_FACTS];
    let read = match read_output(
        program,
        output,
        names,
        &mut facts,
        &mut predicates,
        &mut starts,
        &mut lengths,
    ) {
        Ok(read) => read,
        Err(fault) => return of_fault(Text::Output, fault),
    };
    if !agrees(read.word, code) {
        return of_fault(Text::Output, DISAGREE);
    }
    let line = read.line;
    let count = read.count;
    match read.word {
        Word::Answer => {
            let fault = put_facts(line, &facts, &predicates, &starts, &lengths, count, store);
            let counts = Counts {
                facts: count,
                rules: total,
            };
            with_facts(program, output, &*names, &*store, counts, fault, places)
        }
        Word::Inconsistent => Answer::ClaimedNone,
        Word::Unknown => Answer::ClaimedUnknown,
    }
}
