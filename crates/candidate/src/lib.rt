// A candidate, behind a program and an output that are read: its facts go into the store; 6 and 7; 9; 12; then the last stages.
#![tactic(auto)]

ghost use Rattle.std.specs.Prelude.{◌≡◌, ◌<◌, ◌≤◌, length, get_or};
ghost use Rattle.texts.specs.Place.{Countable};
ghost use Rattle.fields.specs.Parts.{fact_place};
ghost use Rattle.filling.specs.Filling.{FactsFillable};
ghost use Rattle.candidate.specs.Facts.{refusal_of, fault_at, Reachable, FactsPut, WithFacts, AnswersFacts};

use clashes::{Clashing, Reason};
use fields::answer::{Answer, Text, of_fault};
use fields::clash::fact_part;
use filling::fill_facts;
use judge::several::several_heads;
use settled::{Counts, Task, settled};
use texts::place::{Place, TEXT_START};
use texts::refusal::{Refusal, Refused};
use texts::sizes::MOST_TESTED_FACTS;

pub mod settled;

// The refusal of places that are fewer than the facts.
const SHORT: Refused = Refused {
    refusal: Refusal::ShortBuffer,
    place: TEXT_START,
};

// The refusal of more facts than are tested against every proper subset.
const UNTESTED: Refused = Refused {
    refusal: Refusal::Untested,
    place: TEXT_START,
};

fn refusal_of(reason: Reason) -> Refusal
    ensures { result ≡ refusal_of reason }
{
    match reason {
        Reason::Repeated => Refusal::Repeated,
        Reason::Opposed => Refusal::Opposed,
    }
}

// The fault of a fact that clashes with an earlier one, by the facts' line and the tables of all their starts and lengths.
fn fault_of(line: Place, starts: &[u32], lengths: &[u32], clash: Clashing) -> Refused
    requires { (clash.fact < length starts.now) × (clash.fact < length lengths.now) × Countable line (get_or starts.now clash.fact 0) }
    ensures { Some result ≡ fault_at (fact_place line starts.now lengths.now) (Some clash) }
{
    let place = fact_part(line, starts, lengths, clash.fact);
    Refused {
        refusal: refusal_of(clash.reason),
        place,
    }
}

// The facts are put into the store, with their chains; the fault is that of the first one that clashes with an earlier one.
pub fn put_facts(
    line: Place,
    facts: &[u64],
    predicates: &[u64],
    starts: &[u32],
    lengths: &[u32],
    count: usize,
    store: &mut [u64],
) -> Option<Refused>
    requires { FactsFillable facts.now predicates.now count store.old × (count ≤ length starts.now) × (count ≤ length lengths.now) × Reachable line starts.now count }
    ensures { FactsPut line facts.now starts.now lengths.now count store.old store.new result }
{
    match fill_facts(facts, predicates, count, store) {
        Some(clash) => Some(fault_of(line, starts, lengths, clash)),
        None => None,
    }
}

// The answer for a store that stands for the program and for the facts of a line, with the fault of the first fact that has one.
pub fn with_facts<'a>(
    program: &'a [u8],
    output: &'a [u8],
    names: &[u32],
    store: &[u64],
    counts: Counts,
    fault: Option<Refused>,
    places: &mut [u16],
) -> Answer
    requires { WithFacts program.now output.now names.now store.now counts fault }
    ensures { AnswersFacts program.now output.now names.now store.now counts fault places.old result places.new }
{
    if let Some(fault) = fault {
        return of_fault(Text::Output, fault);
    }
    if places.len() < counts.facts {
        return of_fault(Text::Output, SHORT);
    }
    let several = several_heads(store, counts.rules);
    if several && MOST_TESTED_FACTS < counts.facts {
        return of_fault(Text::Output, UNTESTED);
    }
    let task = Task { counts, several };
    settled(program, output, names, store, task, places)
}
