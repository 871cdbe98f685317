// The tables that a caller lends for the rules of a program, and for their literals: all of them zero.
ghost use Rattle.std.specs.Prelude.{◌≡◌, replicate};
ghost use Rattle.program.specs.Rules.{rules_size, literals_size};

use tables::{LITERAL, ROWS, RULE};
use texts::sizes::MOST_RULES;

pub const RULES: usize = MOST_RULES * RULE;

pub const LITERALS: usize = MOST_RULES * ROWS * LITERAL;

pub fn rule_table() -> [u64; RULES]
    ensures { result ≡ replicate rules_size 0 }
{
    [0; RULES]
}

pub fn literal_table() -> [u64; LITERALS]
    ensures { result ≡ replicate literals_size 0 }
{
    [0; LITERALS]
}
