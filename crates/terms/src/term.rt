// A term, read as its number: a name's or a string's code by its place in the table of names, a number's code, or a variable's number in the rule.
ghost use Rattle.std.specs.Prelude.{◌≡◌};
ghost use Rattle.lexis.specs.declared.kind.Kind.TheVariants.{Name, String};
ghost use Rattle.lexis.specs.Kind.{kind_number};
ghost use Rattle.texts.specs.Place.{Stands, Countable};
ghost use Rattle.syntax.specs.Text.{next_of};
ghost use Rattle.terms.specs.Cursors.{ReadyToken};
ghost use Rattle.terms.specs.Terms.{number_term, Puttable, ReadyConstant, ReadyNameless, ReadsConstant, ReadsNameless, ReadsVariable, ReadsAnonymous, ReadsNegative, ReadsTerm};

use crate::cursor::Cursor;
use codes::{FIRST_NAME, FIRST_STRING};
use lexis::kind::{ANONYMOUS, BAR, MINUS, NAME, NUMBER, STRAY, VARIABLE};
use lexis::number::value;
use rows::term::{name_number, number_code};
use syntax::token::{TokenRead, token_at};
use syntax::variable::variable_number;
use syntax::word::{fits_string, fits_word};
use texts::parts::part;
use texts::place::{Place, past, with_len};
use texts::places::put_place;
use texts::refusal::{Refusal, Refused};
use texts::sizes::{MOST_NUMBER, MOST_VARIABLES};

// A term's number, where reading goes on behind it, and how many variables have been met by then.
#[derive(Clone, Copy)]
pub struct TermRead {
    pub number: u64,
    pub behind: Place,
    pub met: usize,
}

// The number that `token` is.
#[tactic(auto, unfolding(crate::specs::Terms::number_term))]
fn number_term(
    text: &[u8],
    token: TokenRead,
    negative: bool,
    over: bool,
    met: usize,
) -> Result<TermRead, Refused>
    requires { Countable token.place (next_of token) }
    ensures { result ≡ number_term text.now token negative over met }
{
    let number = value(part(text, token.place));
    if MOST_NUMBER < number {
        return Err(Refused {
            refusal: Refusal::LargeNumber,
            place: token.place,
        });
    }
    if over {
        return Err(Refused {
            refusal: Refusal::OverSize,
            place: token.place,
        });
    }
    Ok(TermRead {
        number: number_code(negative, number),
        behind: past(token.place),
        met,
    })
}

// The variable that `token` is: one met before, or the next one where there is room.
fn variable_term(
    text: &[u8],
    variables: &mut [u32],
    token: TokenRead,
    over: bool,
    met: usize,
) -> Result<TermRead, Refused>
    requires { Puttable variables.old token met }
    ensures { ReadsVariable text.now variables.old token over met result variables.new }
{
    fits_word(token.place, over)?;
    let number = variable_number(text, token.place, &*variables, met);
    if number < met {
        return Ok(TermRead {
            number: number as u64,
            behind: past(token.place),
            met,
        });
    }
    if MOST_VARIABLES <= number {
        return Err(Refused {
            refusal: Refusal::OverSize,
            place: token.place,
        });
    }
    put_place(variables, met, token.place);
    Ok(TermRead {
        number: number as u64,
        behind: past(token.place),
        met: met + 1,
    })
}

// The `_` that `token` is: a variable of its own, where there is room.
fn anonymous_term(
    variables: &mut [u32],
    token: TokenRead,
    over: bool,
    met: usize,
) -> Result<TermRead, Refused>
    requires { Puttable variables.old token met }
    ensures { ReadsAnonymous variables.old token over met result variables.new }
{
    if over || MOST_VARIABLES <= met {
        return Err(Refused {
            refusal: Refusal::OverSize,
            place: token.place,
        });
    }
    put_place(variables, met, token.place);
    Ok(TermRead {
        number: met as u64,
        behind: past(token.place),
        met: met + 1,
    })
}

// The number behind a minus.
pub fn negative_number(
    text: &[u8],
    at: Place,
    ground: bool,
    met: usize,
) -> Result<TermRead, Refused>
    requires { Stands text.now at }
    ensures { ReadsNegative ground text.now at.start met result }
{
    let token = token_at(text, at, ground);
    if token.kind == NUMBER {
        return number_term(text, token, true, false, met);
    }
    Err(Refused {
        refusal: Refusal::Misplaced,
        place: token.place,
    })
}

// The name that `token` is, where the cursor stands: its number in the table of names.
fn name_term<'a>(
    program: &'a [u8],
    output: &'a [u8],
    text: &'a [u8],
    names: &mut [u32],
    cursor: Cursor,
    token: TokenRead,
) -> Result<TermRead, Refused>
    requires { ReadyConstant (kind_number Name) program.now output.now text.now names.old cursor token }
    ensures { ReadsConstant program.now output.now text.now names.old cursor result names.new }
{
    fits_word(token.place, cursor.over)?;
    let number = name_number(program, output, text, names, cursor.base, token.place);
    Ok(TermRead {
        number: FIRST_NAME + number as u64,
        behind: past(token.place),
        met: cursor.met,
    })
}

// The string that `token` is, where the cursor stands: in the table of names it stands without its closing quote, so that it is no name there.
fn string_term<'a>(
    program: &'a [u8],
    output: &'a [u8],
    text: &'a [u8],
    names: &mut [u32],
    cursor: Cursor,
    token: TokenRead,
) -> Result<TermRead, Refused>
    requires { ReadyConstant (kind_number String) program.now output.now text.now names.old cursor token }
    ensures { ReadsConstant program.now output.now text.now names.old cursor result names.new }
{
    fits_string(token.place, cursor.over)?;
    let opened = with_len(token.place, token.place.len - 1);
    let number = name_number(program, output, text, names, cursor.base, opened);
    Ok(TermRead {
        number: FIRST_STRING + number as u64,
        behind: past(token.place),
        met: cursor.met,
    })
}

// The term that begins with `token`, which is no name, no number and no string, where the cursor stands.
fn nameless_term(
    text: &[u8],
    variables: &mut [u32],
    cursor: Cursor,
    token: TokenRead,
) -> Result<TermRead, Refused>
    requires { ReadyNameless text.now variables.old cursor token }
    ensures { ReadsNameless cursor.ground cursor.over text.now cursor.at.start variables.old cursor.met result variables.new }
{
    let over = cursor.over;
    let met = cursor.met;
    if token.kind == MINUS {
        if over {
            return Err(Refused {
                refusal: Refusal::OverSize,
                place: token.place,
            });
        }
        return negative_number(text, past(token.place), cursor.ground, met);
    }
    if cursor.ground {
        return Err(Refused {
            refusal: Refusal::Misplaced,
            place: token.place,
        });
    }
    if token.kind == VARIABLE {
        return variable_term(text, variables, token, over, met);
    }
    if token.kind == ANONYMOUS {
        return anonymous_term(variables, token, over, met);
    }
    Err(Refused {
        refusal: Refusal::Misplaced,
        place: token.place,
    })
}

// The term where the cursor stands.
pub fn term_at<'a>(
    program: &'a [u8],
    output: &'a [u8],
    text: &'a [u8],
    names: &mut [u32],
    variables: &mut [u32],
    cursor: Cursor,
    token: TokenRead,
) -> Result<TermRead, Refused>
    requires { ReadyToken program.now output.now text.now names.old variables.old cursor token }
    ensures { ReadsTerm program.now output.now text.now names.old variables.old cursor result names.new variables.new }
{
    if token.kind == NAME {
        return name_term(program, output, text, names, cursor, token);
    }
    if token.kind == NUMBER {
        return number_term(text, token, false, cursor.over, cursor.met);
    }
    // Only a string and `|` have a greater number than a stray byte; a test for a string alone would turn these tests into a table of jumps.
    if STRAY < token.kind {
        if token.kind == BAR {
            return Err(Refused {
                refusal: Refusal::Misplaced,
                place: token.place,
            });
        }
        return string_term(program, output, text, names, cursor, token);
    }
    nameless_term(text, variables, cursor, token)
}
