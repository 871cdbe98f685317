// The heads of a rule, atoms with `|` between them, to their rows.
ghost use Rattle.clauses.specs.Heads.{ReadyHeads, ReadsHeads};

use crate::body::put_literal;
use atoms::atom::atom_at;
use lexis::kind::BAR;
use rows::literal::atom_row;
use syntax::token::{TokenRead, token_at};
use tables::{HEAD, ROWS};
use terms::cursor::{Cursor, onward};
use texts::place::past;
use texts::refusal::Refused;
use texts::sizes::MOST_HEADS;

// The first token of the rule with a number.
#[derive(Clone, Copy)]
pub struct FirstToken {
    pub number: usize,
    pub token: TokenRead,
}

// How many heads there are, how many variables have been met behind them, and the token there, which is no `|`.
#[derive(Clone, Copy)]
pub struct HeadsRead {
    pub token: TokenRead,
    pub count: usize,
    pub met: usize,
}

// The heads of the rule whose first token stands at the cursor: they have the first rows of its number.
pub fn heads_at<'a>(
    program: &'a [u8],
    output: &'a [u8],
    names: &mut [u32],
    variables: &mut [u32],
    literals: &mut [u64],
    cursor: Cursor,
    start: FirstToken,
) -> Result<HeadsRead, Refused>
    requires { ReadyHeads program.now output.now names.old variables.old literals.old cursor start }
    ensures { ReadsHeads program.now output.now names.old literals.old cursor start.number result names.new variables.new literals.new }
{
    let mut here = cursor;
    let mut first = start.token;
    let mut count = 0;
    loop {
        let read = atom_at(program, output, program, names, variables, here, first)?;
        let row = atom_row(HEAD, read.codes);
        put_literal(literals, start.number * ROWS + count, row);
        count += 1;
        let token = token_at(program, read.behind, false);
        if token.kind != BAR {
            return Ok(HeadsRead {
                token,
                count,
                met: read.met,
            });
        }
        here = onward(cursor, past(token.place), MOST_HEADS <= count, read.met);
        first = token_at(program, here.at, false);
    }
}
