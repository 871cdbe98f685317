// What the check answers, by value: each kind with the values that it names, and no other.
ghost use Rattle.std.specs.Prelude.{◌≡◌};
ghost use Rattle.fields.specs.Values.{refused, of_fault};

use derived_set::Derived;
use texts::place::Place;
use texts::refusal::Refused;
use texts::sizes::MOST_LITERALS;

// The two lent texts.
#[derive(Clone, Copy)]
pub enum Text {
    Program,
    Output,
}

// A part of one of them.
#[derive(Clone, Copy)]
pub struct Part {
    pub text: Text,
    pub place: Place,
}

// A refusal, a verdict, or what the solver only claimed.
#[derive(Clone, Copy)]
pub enum Answer {
    // its number, and the part that holds the fault
    Refused {
        number: u8,
        part: Part,
    },
    // how many atoms, and ROUNDS, zero where some rule has several heads
    Accepted {
        atoms: usize,
        rounds: usize,
    },
    // the rule's number, and as many positions as it has positive literals, all from 1
    Unsatisfied {
        rule: usize,
        count: usize,
        positions: [u64; MOST_LITERALS],
    },
    // the set of the atoms that are kept, by their places from 0, and their number as its size
    Smaller {
        kept: Derived,
    },
    ClaimedNone,
    ClaimedUnknown,
}

// The answer of the refusal with this number, for a place of this text.
pub fn refused(number: u8, text: Text, place: Place) -> Answer
    ensures { result ≡ refused number text place }
{
    Answer::Refused {
        number,
        part: Part { text, place },
    }
}

// The answer to a fault of this text.
pub fn of_fault(text: Text, fault: Refused) -> Answer
    ensures { result ≡ of_fault text fault }
{
    refused(u8::from(fault.refusal), text, fault.place)
}
