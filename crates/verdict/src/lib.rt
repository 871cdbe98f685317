// From a judgement over the tables to the answer.
#![tactic(auto)]

ghost use Rattle.std.specs.Prelude.{ℕ, ◌≤◌, ◌<◌, get_or};
ghost use Rattle.grammar.specs.Sizes.{most_literals};
ghost use Rattle.verdict.specs.Told.{FromOne, Small, Tells};

use fields::answer::{Answer, Text, of_fault};
use judge::Judgement;
use rule_places::rule_place;
use texts::refusal::{Refusal, Refused};
use texts::sizes::MOST_LITERALS;

// Positions are counted from 1, as many as there are; behind them stand zeros.
fn from_one(positions: [u64; MOST_LITERALS], count: usize) -> [u64; MOST_LITERALS]
    requires { (count ≤ most_literals) × ((i : ℕ) → i < count → get_or positions i 0 < 1024) }
    ensures { FromOne count positions result }
{
    let mut counted = [0; MOST_LITERALS];
    for i in 0..count {
        counted[i] = positions[i] + 1;
    }
    counted
}

// The answer that a judgement gives, beside so many atoms.
pub fn verdict(program: &[u8], judgement: Judgement, atoms: usize) -> Answer
    requires { Small judgement }
    ensures { Tells program.now atoms judgement result }
{
    match judgement {
        Judgement::OutOfRange { rule } => {
            let refusal = Refusal::OutOfRange;
            let place = rule_place(program, rule);
            of_fault(Text::Program, Refused { refusal, place })
        }
        Judgement::Unsatisfied {
            rule,
            length,
            positions,
        } => {
            let count = length.min(MOST_LITERALS);
            Answer::Unsatisfied {
                rule: rule + 1,
                count,
                positions: from_one(positions, count),
            }
        }
        Judgement::Accepted { rounds } => Answer::Accepted {
            atoms,
            rounds: rounds as usize,
        },
        Judgement::Minimal => Answer::Accepted { atoms, rounds: 0 },
        Judgement::Smaller { set } => Answer::Smaller { kept: set },
    }
}
