// A rule's own row, over the rows of its literals.
ghost use Rattle.std.specs.Prelude.{◌≡◌, cond, ◌+◌, ◌*◌, ◌≤◌, length};
ghost use Rattle.tables.specs.Layout.{rule_stride};
ghost use Rattle.tables.specs.WellFormed.{Inside};
ghost use Rattle.rulesafety.specs.Bound.{BodyInside};
ghost use Rattle.rulesafety.specs.RuleRow.{row_operation, some_operation, NumbersStored, Storable, RowStored};

use crate::bound::Bound;
use crate::listed::{Rows, positives_of};
use crate::scan::scan_of;
use tables::row::put_row;
use tables::{
    BUILTIN, EQUATION_PLACES, LITERAL, NO_OPERATION, OPERATION, POSITIVE_PLACES, ROWS, RULE, SORT,
};
use texts::sizes::MOST_HEADS;

// What a rule's own row says of it: how many heads it has, how many literals its body, whether one has an operation, the rows of the equations
// that bind and of the positive literals.
#[derive(Clone, Copy)]
struct Numbers {
    heads: usize,
    literals: usize,
    operation: bool,
    equations: Rows,
    positives: Rows,
}

// The row is that of a built-in with an operation.
fn row_operation(literals: &[u64], literal: usize) -> bool
    requires { Inside literals.now literal }
    ensures { result ≡ row_operation literals.now literal }
{
    let row = literal * LITERAL;
    if literals[row + SORT] < BUILTIN {
        return false;
    }
    if literals[row + OPERATION] == NO_OPERATION {
        return false;
    }
    true
}

// Some row of a body has an operation. The body has `count` rows from `first` on.
fn has_operation(literals: &[u64], first: usize, count: usize) -> bool
    requires { BodyInside literals.now first count }
    ensures { result ≡ some_operation literals.now count first }
{
    (first..first + count).any(|literal| row_operation(literals, literal))
}

// The row of the rule with a number, whose heads have the first rows of that number and whose body those from `first` on.
fn put_numbers(rules: &mut [u64], number: usize, first: usize, numbers: Numbers)
    requires { number * rule_stride + rule_stride ≤ length rules.old }
    ensures { NumbersStored rules.old number first numbers rules.new }
{
    let at = number * RULE;
    let equations = numbers.equations;
    let positives = numbers.positives;
    let header = [
        (number * ROWS) as u64,
        numbers.heads as u64,
        first as u64,
        numbers.literals as u64,
        u64::from(numbers.operation),
        equations.count as u64,
        positives.count as u64,
    ];
    put_row(rules, at, &header);
    let binding = equations.rows;
    put_row(rules, at + EQUATION_PLACES, &binding);
    let positive = positives.rows;
    put_row(rules, at + POSITIVE_PLACES, &positive);
}

// The same, where there are `heads` heads, and the body has `count` rows behind those for heads: the variables that they bind.
pub fn put_rule_row(
    rules: &mut [u64],
    literals: &[u64],
    number: usize,
    heads: usize,
    count: usize,
) -> Bound
    requires { Storable rules.old literals.now number count }
    ensures { RowStored rules.old literals.now number heads count result rules.new }
{
    let first = number * ROWS + MOST_HEADS;
    let found = scan_of(literals, first, count);
    let positives = positives_of(literals, first, count);
    let operation = has_operation(literals, first, count);
    let equations = found.equations;
    let numbers = Numbers {
        heads,
        literals: count,
        operation,
        equations,
        positives,
    };
    put_numbers(rules, number, first, numbers);
    found.bound
}
