// A classical atom, read as its predicate's number and its terms': perhaps a minus, a name, perhaps arguments.
ghost use Rattle.terms.specs.Cursors.{ReadyCursor, ReadyToken};
ghost use Rattle.atoms.specs.Atoms.{ReadyNamed, ReadsNamed, ReadsMinus, ReadsAtom};

use crate::arguments::arguments_at;
use codes::predicate;
use lexis::kind::{MINUS, NAME, OPEN};
use rows::literal::AtomCodes;
use rows::term::name_number;
use syntax::token::{TokenRead, token_at};
use syntax::word::fits_word;
use terms::cursor::{Cursor, onward};
use texts::place::{Place, past};
use texts::refusal::{Refusal, Refused};
use texts::sizes::MOST_ARGUMENTS;

// An atom's numbers, the place behind it, and how many variables have been met there.
#[derive(Clone, Copy)]
pub struct AtomRead {
    pub codes: AtomCodes,
    pub behind: Place,
    pub met: usize,
}

// The name of an atom, by its number, and whether a minus stands before it.
#[derive(Clone, Copy)]
pub struct SignedName {
    pub negative: bool,
    pub number: usize,
}

// The atom whose name ends before the cursor: perhaps arguments.
pub fn named_atom<'a>(
    program: &'a [u8],
    output: &'a [u8],
    text: &'a [u8],
    names: &mut [u32],
    variables: &mut [u32],
    cursor: Cursor,
    name: SignedName,
) -> Result<AtomRead, Refused>
    requires { ReadyNamed program.now output.now text.now names.old variables.old cursor name }
    ensures { ReadsNamed program.now output.now text.now names.old variables.old cursor name result names.new variables.new }
{
    let token = token_at(text, cursor.at, cursor.ground);
    let number = name.number as u64;
    if token.kind != OPEN {
        return Ok(AtomRead {
            codes: AtomCodes {
                predicate: predicate(name.negative, number, 0),
                terms: [0; MOST_ARGUMENTS],
            },
            behind: cursor.at,
            met: cursor.met,
        });
    }
    let inside = onward(cursor, past(token.place), false, cursor.met);
    let read = arguments_at(program, output, text, names, variables, inside)?;
    let terms = read.terms;
    Ok(AtomRead {
        codes: AtomCodes {
            predicate: predicate(name.negative, number, read.count as u64),
            terms,
        },
        behind: read.behind,
        met: read.met,
    })
}

// The atom whose minus ends before the cursor.
pub fn minus_atom<'a>(
    program: &'a [u8],
    output: &'a [u8],
    text: &'a [u8],
    names: &mut [u32],
    variables: &mut [u32],
    cursor: Cursor,
) -> Result<AtomRead, Refused>
    requires { ReadyCursor program.now output.now text.now names.old variables.old cursor }
    ensures { ReadsMinus program.now output.now text.now names.old variables.old cursor result names.new variables.new }
{
    let token = token_at(text, cursor.at, cursor.ground);
    if token.kind != NAME {
        return Err(Refused {
            refusal: Refusal::Misplaced,
            place: token.place,
        });
    }
    fits_word(token.place, false)?;
    let number = name_number(program, output, text, names, cursor.base, token.place);
    let behind = onward(cursor, past(token.place), false, cursor.met);
    let name = SignedName {
        negative: true,
        number,
    };
    named_atom(program, output, text, names, variables, behind, name)
}

// The atom where the cursor stands, as a head or behind `not`.
pub fn atom_at<'a>(
    program: &'a [u8],
    output: &'a [u8],
    text: &'a [u8],
    names: &mut [u32],
    variables: &mut [u32],
    cursor: Cursor,
    token: TokenRead,
) -> Result<AtomRead, Refused>
    requires { ReadyToken program.now output.now text.now names.old variables.old cursor token }
    ensures { ReadsAtom program.now output.now text.now names.old variables.old cursor result names.new variables.new }
{
    let behind = onward(cursor, past(token.place), false, cursor.met);
    if token.kind == NAME {
        fits_word(token.place, cursor.over)?;
        let number = name_number(program, output, text, names, cursor.base, token.place);
        let name = SignedName {
            negative: false,
            number,
        };
        return named_atom(program, output, text, names, variables, behind, name);
    }
    if token.kind != MINUS {
        return Err(Refused {
            refusal: Refusal::Misplaced,
            place: token.place,
        });
    }
    if cursor.over {
        return Err(Refused {
            refusal: Refusal::OverSize,
            place: token.place,
        });
    }
    minus_atom(program, output, text, names, variables, behind)
}
