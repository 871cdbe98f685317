// A literal, read as its row: a classical atom, `not` and a classical atom, or a built-in atom.
ghost use Rattle.std.specs.Prelude.{◌≡◌};
ghost use Rattle.literals.specs.Builtins.{ReadyBehind};
ghost use Rattle.literals.specs.Literals.{begins_term, atom_literal, NoneTooMany, ReadyToken, ReadsMinusLiteral, ReadsLiteral};

use crate::builtin::{LiteralRead, side_at};
use atoms::atom::{AtomRead, SignedName, atom_at, minus_atom, named_atom};
use codes::FIRST_NAME;
use lexis::kind::{MINUS, NAME, NOT, NUMBER, STRING};
use rows::literal::atom_row;
use rows::term::name_number;
use syntax::sign::is_comparison;
use syntax::token::{TokenRead, token_at};
use syntax::word::fits_word;
use tables::{NEGATED, POSITIVE};
use terms::cursor::{Cursor, onward};
use terms::term::{negative_number, term_at};
use texts::place::{Place, past};
use texts::refusal::{Refusal, Refused};

// The literal of an atom that has been read.
fn of_atom(sort: u64, atom: AtomRead) -> LiteralRead
    ensures { result ≡ atom_literal sort atom }
{
    let codes = atom.codes;
    LiteralRead {
        row: atom_row(sort, codes),
        behind: atom.behind,
        met: atom.met,
    }
}

// The literal that begins with the name `token`, where the cursor stands: a built-in atom where a comparison follows.
fn name_literal<'a>(
    program: &'a [u8],
    output: &'a [u8],
    names: &mut [u32],
    variables: &mut [u32],
    cursor: Cursor,
    token: TokenRead,
) -> Result<LiteralRead, Refused>
    requires { ReadyToken program.now output.now names.old variables.old cursor token }
    ensures { ReadsLiteral program.now output.now names.old variables.old cursor result names.new variables.new }
{
    fits_word(token.place, cursor.over)?;
    let number = name_number(program, output, program, names, cursor.base, token.place);
    let behind = onward(cursor, past(token.place), false, cursor.met);
    let next = token_at(program, behind.at, false);
    if is_comparison(next.kind) {
        let left = FIRST_NAME + number as u64;
        return side_at(program, output, names, variables, behind, left);
    }
    let name = SignedName {
        negative: false,
        number,
    };
    let atom = named_atom(program, output, program, names, variables, behind, name)?;
    Ok(of_atom(POSITIVE, atom))
}

// The literal whose minus ends before the cursor: a built-in atom where a number follows.
fn minus_literal<'a>(
    program: &'a [u8],
    output: &'a [u8],
    names: &mut [u32],
    variables: &mut [u32],
    cursor: Cursor,
) -> Result<LiteralRead, Refused>
    requires { ReadyBehind program.now output.now names.old variables.old cursor }
    ensures { ReadsMinusLiteral program.now output.now names.old variables.old cursor result names.new variables.new }
{
    let token = token_at(program, cursor.at, false);
    if token.kind == NUMBER {
        let left = negative_number(program, cursor.at, false, cursor.met)?;
        let behind = onward(cursor, left.behind, false, left.met);
        return side_at(program, output, names, variables, behind, left.number);
    }
    let atom = minus_atom(program, output, program, names, variables, cursor)?;
    Ok(of_atom(POSITIVE, atom))
}

// What begins at a place may be one too many, and is refused there.
fn none_too_many(place: Place, over: bool) -> Result<(), Refused>
    ensures { NoneTooMany place over result }
{
    if over {
        return Err(Refused {
            refusal: Refusal::OverSize,
            place,
        });
    }
    Ok(())
}

// Does a term begin with a token of the kind? A variable, `_`, a number and a string are one; a name may begin an atom, and a minus too.
#[tactic(auto, unfolding(crate::specs::Literals::begins_term))]
fn begins_term(kind: u8) -> bool
    ensures { result ≡ begins_term kind }
{
    kind <= NUMBER || kind == STRING
}

// The literal where the cursor stands.
pub fn literal_at<'a>(
    program: &'a [u8],
    output: &'a [u8],
    names: &mut [u32],
    variables: &mut [u32],
    cursor: Cursor,
) -> Result<LiteralRead, Refused>
    requires { ReadyBehind program.now output.now names.old variables.old cursor }
    ensures { ReadsLiteral program.now output.now names.old variables.old cursor result names.new variables.new }
{
    let token = token_at(program, cursor.at, false);
    let behind = onward(cursor, past(token.place), false, cursor.met);
    if token.kind == NAME {
        return name_literal(program, output, names, variables, cursor, token);
    }
    if token.kind == NOT {
        none_too_many(token.place, cursor.over)?;
        let next = token_at(program, behind.at, false);
        let atom = atom_at(program, output, program, names, variables, behind, next)?;
        return Ok(of_atom(NEGATED, atom));
    }
    if token.kind == MINUS {
        none_too_many(token.place, cursor.over)?;
        return minus_literal(program, output, names, variables, behind);
    }
    if !begins_term(token.kind) {
        return Err(Refused {
            refusal: Refusal::Misplaced,
            place: token.place,
        });
    }
    let left = term_at(program, output, program, names, variables, cursor, token)?;
    let behind = onward(cursor, left.behind, false, left.met);
    side_at(program, output, names, variables, behind, left.number)
}
