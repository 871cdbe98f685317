// Why something is refused, by the paper's table of numbers, and the part of the text that holds the fault.
ghost use Rattle.texts.specs.Refusal.{Numbered};

use crate::place::Place;

// The rows of the table, in its order.
#[derive(Clone, Copy, PartialEq, Eq)]
pub enum Refusal {
    // a text is over its size
    LongText,
    // the first token that can't stand there, an end where more is needed, a byte where no token starts, or a line out of place
    Misplaced,
    // a number over its size
    LargeNumber,
    // another size is passed
    OverSize,
    // a variable is not bound
    Unbound,
    // a fact repeats an earlier one
    Repeated,
    // a fact and an earlier one differ only in sign
    Opposed,
    // arithmetic leaves the range
    OutOfRange,
    // a lent buffer is too short
    ShortBuffer,
    // the solver's code and its report disagree
    Disagreement,
    // more facts than are tested against every proper subset
    Untested,
}

// The number of the row.
impl From<Refusal> for u8 {
    ghost from_gives = { Numbered };

    fn from(refusal: Refusal) -> u8 {
        match refusal {
            Refusal::LongText => 1,
            Refusal::Misplaced => 2,
            Refusal::LargeNumber => 3,
            Refusal::OverSize => 4,
            Refusal::Unbound => 5,
            Refusal::Repeated => 6,
            Refusal::Opposed => 7,
            Refusal::OutOfRange => 8,
            Refusal::ShortBuffer => 9,
            Refusal::Disagreement => 10,
            Refusal::Untested => 12,
        }
    }
}

// A refusal and its place.
#[derive(Clone, Copy)]
pub struct Refused {
    pub refusal: Refusal,
    pub place: Place,
}
