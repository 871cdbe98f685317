// The arguments of an atom, behind its opening parenthesis, read as their numbers.
ghost use Rattle.terms.specs.Cursors.{ReadyCursor};
ghost use Rattle.atoms.specs.Arguments.{ReadySome, ReadsArguments};

use lexis::kind::CLOSE;
use syntax::separator::separator_at;
use syntax::token::{TokenRead, token_at};
use terms::cursor::{Cursor, onward};
use terms::term::term_at;
use texts::place::{Place, past};
use texts::refusal::Refused;
use texts::sizes::MOST_ARGUMENTS;

// The numbers of the first `count` terms, the place behind them, and how many variables have been met there. An array with a count, since
// there is no heap, and an atom's row has a column for each of the eight.
#[derive(Clone, Copy)]
pub struct ArgumentsRead {
    pub terms: [u64; MOST_ARGUMENTS],
    pub count: usize,
    pub behind: Place,
    pub met: usize,
}

// The arguments where the cursor stands, one at least, with the closing parenthesis.
fn some_arguments<'a>(
    program: &'a [u8],
    output: &'a [u8],
    text: &'a [u8],
    names: &mut [u32],
    variables: &mut [u32],
    cursor: Cursor,
    first: TokenRead,
) -> Result<ArgumentsRead, Refused>
    requires { ReadySome program.now output.now text.now names.old variables.old cursor first }
    ensures { ReadsArguments program.now output.now text.now names.old variables.old cursor result names.new variables.new }
{
    let mut terms = [0; MOST_ARGUMENTS];
    let mut at = cursor.at;
    let mut met = cursor.met;
    let mut count = 0;
    let mut token = first;
    loop {
        let here = onward(cursor, at, MOST_ARGUMENTS <= count, met);
        let read = term_at(program, output, text, names, variables, here, token)?;
        terms[count] = read.number;
        count += 1;
        met = read.met;
        let end = separator_at(text, read.behind, cursor.ground, CLOSE)?;
        at = end.behind;
        if end.last {
            return Ok(ArgumentsRead {
                terms,
                count,
                behind: at,
                met,
            });
        }
        token = token_at(text, at, cursor.ground);
    }
}

// The arguments where the cursor stands, with the closing parenthesis.
pub fn arguments_at<'a>(
    program: &'a [u8],
    output: &'a [u8],
    text: &'a [u8],
    names: &mut [u32],
    variables: &mut [u32],
    cursor: Cursor,
) -> Result<ArgumentsRead, Refused>
    requires { ReadyCursor program.now output.now text.now names.old variables.old cursor }
    ensures { ReadsArguments program.now output.now text.now names.old variables.old cursor result names.new variables.new }
{
    let token = token_at(text, cursor.at, cursor.ground);
    if token.kind == CLOSE {
        return Ok(ArgumentsRead {
            terms: [0; MOST_ARGUMENTS],
            count: 0,
            behind: past(token.place),
            met: cursor.met,
        });
    }
    some_arguments(program, output, text, names, variables, cursor, token)
}
