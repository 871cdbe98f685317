// The body of a rule, literals separated by commas and a dot, to the literals' rows.
ghost use Rattle.std.specs.Prelude.{◌≡◌, ◌+◌, ◌*◌, ◌≤◌, length};
ghost use Rattle.tables.specs.Stored.{with_row};
ghost use Rattle.tables.specs.Layout.{literal_stride};
ghost use Rattle.clauses.specs.Bodies.{ReadyBody, FillsBody};

use lexis::kind::DOT;
use literals::literal::literal_at;
use syntax::separator::separator_at;
use tables::LITERAL;
use tables::row::put_row;
use terms::cursor::{Cursor, onward};
use texts::place::Place;
use texts::refusal::Refused;
use texts::sizes::MOST_LITERALS;

// How many literals there are, the place behind them, and how many variables have been met there.
#[derive(Clone, Copy)]
pub struct BodyRead {
    pub count: usize,
    pub behind: Place,
    pub met: usize,
}

// The row with a number is the literal's.
pub fn put_literal(literals: &mut [u64], number: usize, row: [u64; LITERAL])
    requires { number * literal_stride + literal_stride ≤ length literals.old }
    ensures { (length row ≡ literal_stride) × (literals.new ≡ with_row literals.old (number * literal_stride) row) }
{
    put_row(literals, number * LITERAL, &row);
}

// The body whose `:-` ends before the cursor, with its dot: its literals have the rows from `first` on.
pub fn body_at<'a>(
    program: &'a [u8],
    output: &'a [u8],
    names: &mut [u32],
    variables: &mut [u32],
    literals: &mut [u64],
    cursor: Cursor,
    first: usize,
) -> Result<BodyRead, Refused>
    requires { ReadyBody program.now output.now names.old variables.old literals.old cursor first }
    ensures { FillsBody program.now output.now names.old variables.old literals.old cursor first result names.new variables.new literals.new }
{
    let mut at = cursor.at;
    let mut met = cursor.met;
    let mut count = 0;
    loop {
        let here = onward(cursor, at, MOST_LITERALS <= count, met);
        let read = literal_at(program, output, names, variables, here)?;
        put_literal(literals, first + count, read.row);
        count += 1;
        met = read.met;
        let end = separator_at(program, read.behind, false, DOT)?;
        at = end.behind;
        if end.last {
            return Ok(BodyRead {
                count,
                behind: at,
                met,
            });
        }
    }
}
