// The facts of a facts line, one after the other, to their rows; and their predicates.
ghost use Rattle.std.specs.Prelude.{◌≡◌, ◌∷◌, ◌*◌, ◌≤◌, length};
ghost use Rattle.tables.specs.Layout.{fact_stride};
ghost use Rattle.factline.specs.Lines.{Fillable, FillsRows, Puttable, Put, Listed};

use crate::fact::{FactRead, fact_at};
use rows::literal::AtomCodes;
use tables::FACT;
use tables::row::put_row;
use terms::cursor::{Cursor, onward};
use texts::parts::part;
use texts::place::{Place, TEXT_START};
use texts::places::PLACE;
use texts::refusal::Refused;
use texts::sizes::{MOST_FACTS, MOST_VARIABLES};

// The predicate's number, and those of the arguments behind it.
fn fact_row(codes: AtomCodes) -> [u64; FACT]
    ensures { result ≡ codes.predicate ∷ codes.terms }
{
    let terms = codes.terms;
    let mut row = [codes.predicate; FACT];
    row[1..].copy_from_slice(&terms);
    row
}

// The fact with a number, on a line that starts at `base` of the output: its row, and where it stands.
// Starts and lengths stay two tables beside the rows: the paper names an array for each.
fn put_fact(
    facts: &mut [u64],
    starts: &mut [u32],
    lengths: &mut [u32],
    number: usize,
    base: usize,
    fact: FactRead,
)
    requires { Puttable facts.old starts.old lengths.old number base fact }
    ensures { Put facts.old starts.old lengths.old number base fact facts.new starts.new lengths.new }
{
    let codes = fact.codes;
    let row = fact_row(codes);
    put_row(facts, number * FACT, &row);
    starts[number] = (base + fact.start) as u32;
    lengths[number] = (fact.behind.start - fact.start) as u32;
}

// All facts of a line of the output: how many they are, with their rows and their places in the tables; or the refusal, at its place on the line.
pub fn read_line<'a>(
    program: &'a [u8],
    output: &'a [u8],
    line: Place,
    names: &mut [u32],
    facts: &mut [u64],
    starts: &mut [u32],
    lengths: &mut [u32],
) -> Result<usize, Refused>
    requires { Fillable program.now output.now line names.old facts.old starts.old lengths.old }
    ensures { FillsRows program.now output.now line names.old facts.old starts.old lengths.old result names.new facts.new starts.new lengths.new }
{
    let text = part(output, line);
    let start = Cursor {
        base: program.len() + line.start,
        at: TEXT_START,
        ground: true,
        over: false,
        met: 0,
    };
    let mut variables = [0u32; MOST_VARIABLES * PLACE];
    let mut at = TEXT_START;
    let mut count = 0;
    loop {
        let here = onward(start, at, MOST_FACTS <= count, 0);
        let Some(fact) = fact_at(program, output, text, names, &mut variables, here)? else {
            return Ok(count);
        };
        put_fact(facts, starts, lengths, count, line.start, fact);
        at = fact.behind;
        count += 1;
    }
}

// The predicates of the first `count` facts, from their rows.
pub fn put_predicates(facts: &[u64], predicates: &mut [u64], count: usize)
    requires { (count * fact_stride ≤ length facts.now) × (count ≤ length predicates.old) }
    ensures { Listed facts.now count predicates.old predicates.new }
{
    for k in 0..count {
        predicates[k] = facts[k * FACT];
    }
}
