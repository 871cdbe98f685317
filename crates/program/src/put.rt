// A rule of a program, read into the tables: its literals' rows and its own, and the first of its variables that is not bound.
ghost use Rattle.program.specs.Puts.{Puttable, PutsRule};

use clauses::clause::rule_at;
use rulesafety::rule_row::put_rule_row;
use rulesafety::unbound::first_unbound;
use terms::cursor::Cursor;
use texts::place::Place;
use texts::refusal::Refused;

// Where a rule starts in the program, its number, and whether it is one too many.
#[derive(Clone, Copy)]
pub struct RuleStart {
    pub at: Place,
    pub number: usize,
    pub over: bool,
}

// A rule in the tables: the place behind its dot, and the first of its variables that is not bound.
#[derive(Clone, Copy)]
pub struct RulePut {
    pub behind: Place,
    pub unbound: Option<Place>,
}

// The rule that starts there, in the rows of its number; none where the text ends. `variables` is a table for its variables.
pub fn put_rule<'a>(
    program: &'a [u8],
    output: &'a [u8],
    names: &mut [u32],
    variables: &mut [u32],
    rules: &mut [u64],
    literals: &mut [u64],
    start: RuleStart,
) -> Result<Option<RulePut>, Refused>
    requires { Puttable program.now output.now names.old variables.old rules.old literals.old start }
    ensures { PutsRule program.now output.now names.old rules.old literals.old start result names.new rules.new literals.new }
{
    let number = start.number;
    let at = start.at;
    let cursor = Cursor {
        base: 0,
        at,
        ground: false,
        over: start.over,
        met: 0,
    };
    let Some(rule) = rule_at(program, output, names, variables, literals, cursor, number)? else {
        return Ok(None);
    };
    let bound = put_rule_row(rules, literals, number, rule.heads, rule.count);
    let unbound = first_unbound(bound, variables, rule.met);
    Ok(Some(RulePut {
        behind: rule.behind,
        unbound,
    }))
}
