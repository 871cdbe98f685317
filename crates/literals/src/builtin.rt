// A built-in atom from its left term's number on: a comparison, a term, and perhaps an operation and a term, read as a row.
ghost use Rattle.literals.specs.Builtins.{ReadyBehind, ReadySide, ReadsTail, ReadsSide};

use lexis::kind::{MINUS, TIMES};
use rows::literal::{built_in_row, comparison_code, operation_code};
use syntax::sign::is_comparison;
use syntax::token::token_at;
use tables::{LITERAL, NO_OPERATION};
use terms::cursor::{Cursor, onward};
use terms::term::term_at;
use texts::place::{Place, past};
use texts::refusal::{Refusal, Refused};

// A literal's row, where reading goes on behind it, and how many variables have been met by then.
#[derive(Clone, Copy)]
pub struct LiteralRead {
    pub row: [u64; LITERAL],
    pub behind: Place,
    pub met: usize,
}

// The two sides of a comparison, by their numbers, and its own.
#[derive(Clone, Copy)]
struct Sides {
    left: u64,
    comparison: u64,
    right: u64,
}

// What stands behind the right term: perhaps an operation and its operand.
fn operation_at<'a>(
    program: &'a [u8],
    output: &'a [u8],
    names: &mut [u32],
    variables: &mut [u32],
    cursor: Cursor,
    sides: Sides,
) -> Result<LiteralRead, Refused>
    requires { ReadyBehind program.now output.now names.old variables.old cursor }
    ensures { ReadsTail program.now output.now names.old variables.old cursor sides result names.new variables.new }
{
    let token = token_at(program, cursor.at, false);
    let left = sides.left;
    let comparison = sides.comparison;
    let right = sides.right;
    if token.kind < MINUS || TIMES < token.kind {
        return Ok(LiteralRead {
            row: built_in_row(comparison, NO_OPERATION, left, right, 0),
            behind: cursor.at,
            met: cursor.met,
        });
    }
    let behind = onward(cursor, past(token.place), false, cursor.met);
    let next = token_at(program, behind.at, false);
    let operand = term_at(program, output, program, names, variables, behind, next)?;
    let operation = operation_code(token.kind);
    Ok(LiteralRead {
        row: built_in_row(comparison, operation, left, right, operand.number),
        behind: operand.behind,
        met: operand.met,
    })
}

// What stands behind the left term, whose number is `left`: a comparison, a term, and perhaps an operation and a term.
pub fn side_at<'a>(
    program: &'a [u8],
    output: &'a [u8],
    names: &mut [u32],
    variables: &mut [u32],
    cursor: Cursor,
    left: u64,
) -> Result<LiteralRead, Refused>
    requires { ReadySide program.now output.now names.old variables.old cursor left }
    ensures { ReadsSide program.now output.now names.old variables.old cursor left result names.new variables.new }
{
    let token = token_at(program, cursor.at, false);
    if !is_comparison(token.kind) {
        return Err(Refused {
            refusal: Refusal::Misplaced,
            place: token.place,
        });
    }
    let behind = onward(cursor, past(token.place), false, cursor.met);
    let next = token_at(program, behind.at, false);
    let right = term_at(program, output, program, names, variables, behind, next)?;
    let sides = Sides {
        left,
        comparison: comparison_code(token.kind),
        right: right.number,
    };
    let end = onward(cursor, right.behind, false, right.met);
    operation_at(program, output, names, variables, end, sides)
}
