// A fact of a facts line, read as its numbers.
ghost use Rattle.factline.specs.Facts.{ReadyFact, ReadsFact};

use atoms::atom::atom_at;
use lexis::kind::{DOT, END, IF};
use rows::literal::AtomCodes;
use syntax::token::token_at;
use terms::cursor::Cursor;
use texts::place::{Place, past};
use texts::refusal::{Refusal, Refused};

// A fact's numbers, where its first token starts, and the place behind its dot.
#[derive(Clone, Copy)]
pub struct FactRead {
    pub codes: AtomCodes,
    pub start: usize,
    pub behind: Place,
}

// The fact where the cursor stands on a line, with its dot; or none, because the line ends. `variables` has room for those of a rule, though a
// fact has none.
pub fn fact_at<'a>(
    program: &'a [u8],
    output: &'a [u8],
    text: &'a [u8],
    names: &mut [u32],
    variables: &mut [u32],
    cursor: Cursor,
) -> Result<Option<FactRead>, Refused>
    requires { ReadyFact program.now output.now text.now names.old variables.old cursor }
    ensures { ReadsFact program.now output.now names.old cursor.over text.now cursor.at.start result names.new }
{
    let token = token_at(text, cursor.at, true);
    if token.kind == END {
        return Ok(None);
    }
    if token.kind == IF {
        return Err(Refused {
            refusal: Refusal::Misplaced,
            place: token.place,
        });
    }
    let read = atom_at(program, output, text, names, variables, cursor, token)?;
    let codes = read.codes;
    let dot = token_at(text, read.behind, true);
    if dot.kind != DOT {
        return Err(Refused {
            refusal: Refusal::Misplaced,
            place: dot.place,
        });
    }
    Ok(Some(FactRead {
        codes,
        start: token.place.start,
        behind: past(dot.place),
    }))
}
