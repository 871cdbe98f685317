// A rule of a program to its literals' rows: four for its heads, and behind them its body's.
ghost use Rattle.std.specs.Prelude.{◌≡◌};
ghost use Rattle.clauses.specs.Heads.{ReadyRule, ReadyHeads};
ghost use Rattle.clauses.specs.Clauses.{bodied_rule, ReadsRule, FillsRule};

use crate::body::{BodyRead, body_at};
use crate::heads::{FirstToken, heads_at};
use lexis::kind::{DOT, END, IF};
use syntax::token::token_at;
use tables::ROWS;
use terms::cursor::{Cursor, onward};
use texts::place::{Place, past};
use texts::refusal::{Refusal, Refused};
use texts::sizes::MOST_HEADS;

// A rule: how many heads it has, how many literals in its body, the place behind its dot, and how many variables it has.
#[derive(Clone, Copy)]
pub struct RuleRead {
    pub heads: usize,
    pub count: usize,
    pub behind: Place,
    pub met: usize,
}

// The rule with as many heads and a body.
fn bodied(heads: usize, body: BodyRead) -> RuleRead
    ensures { result ≡ bodied_rule heads body }
{
    RuleRead {
        heads,
        count: body.count,
        behind: body.behind,
        met: body.met,
    }
}

// The rule whose first token stands at the cursor and begins a head: behind its heads a dot, or `:-` and a body.
fn with_heads<'a>(
    program: &'a [u8],
    output: &'a [u8],
    names: &mut [u32],
    variables: &mut [u32],
    literals: &mut [u64],
    cursor: Cursor,
    start: FirstToken,
) -> Result<RuleRead, Refused>
    requires { ReadyHeads program.now output.now names.old variables.old literals.old cursor start }
    ensures { ReadsRule program.now output.now names.old variables.old literals.old cursor start.number result names.new variables.new literals.new }
{
    let heads = heads_at(program, output, names, variables, literals, cursor, start)?;
    let token = heads.token;
    if token.kind == DOT {
        return Ok(RuleRead {
            heads: heads.count,
            count: 0,
            behind: past(token.place),
            met: heads.met,
        });
    }
    if token.kind != IF {
        return Err(Refused {
            refusal: Refusal::Misplaced,
            place: token.place,
        });
    }
    let behind = onward(cursor, past(token.place), false, heads.met);
    let first = start.number * ROWS + MOST_HEADS;
    let body = body_at(program, output, names, variables, literals, behind, first)?;
    Ok(bodied(heads.count, body))
}

// The rule with a number where the cursor stands, with its dot; none where the text ends.
pub fn rule_at<'a>(
    program: &'a [u8],
    output: &'a [u8],
    names: &mut [u32],
    variables: &mut [u32],
    literals: &mut [u64],
    cursor: Cursor,
    number: usize,
) -> Result<Option<RuleRead>, Refused>
    requires { ReadyRule program.now output.now names.old variables.old literals.old cursor number }
    ensures { FillsRule program.now output.now names.old variables.old literals.old cursor number result names.new variables.new literals.new }
{
    let token = token_at(program, cursor.at, false);
    if token.kind == END {
        return Ok(None);
    }
    if token.kind != IF {
        let start = FirstToken { number, token };
        let rule = with_heads(program, output, names, variables, literals, cursor, start)?;
        return Ok(Some(rule));
    }
    if cursor.over {
        return Err(Refused {
            refusal: Refusal::OverSize,
            place: token.place,
        });
    }
    let first = number * ROWS + MOST_HEADS;
    let behind = onward(cursor, past(token.place), false, 0);
    let body = body_at(program, output, names, variables, literals, behind, first)?;
    Ok(Some(bodied(0, body)))
}
