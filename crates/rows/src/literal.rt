// Literals to rows of 11 numbers: an atom's row, and a built-in's.
ghost use Rattle.std.specs.Prelude.{◌≡◌, [], ◌∷◌, ◌<◌};
ghost use Rattle.codes.specs.Arithmetic.{comparison_at, operation_at};
ghost use Rattle.tables.specs.Rows.{no_operation};
ghost use Rattle.syntax.specs.Builtins.{comparison_of, operation_of};

use lexis::kind;
use tables::{BUILTIN, LITERAL};
use texts::sizes::MOST_ARGUMENTS;

// The number of an atom's predicate, and its arguments' numbers, as many as the arity says.
#[derive(Clone, Copy)]
pub struct AtomCodes {
    pub predicate: u64,
    pub terms: [u64; MOST_ARGUMENTS],
}

// The number of a comparison, by its sign's kind.
#[tactic(auto, unfolding(codes::specs::Arithmetic::comparison_at, syntax::specs::Builtins::comparison_of))]
pub fn comparison_code(kind: u8) -> u64
    ensures { comparison_at result ≡ comparison_of kind }
{
    if kind == kind::EQUAL {
        return codes::EQUAL;
    }
    if kind == kind::UNEQUAL {
        return codes::UNEQUAL;
    }
    if kind == kind::ALSO_UNEQUAL {
        return codes::UNEQUAL;
    }
    if kind == kind::LESS {
        return codes::LESS;
    }
    if kind == kind::AT_MOST {
        return codes::AT_MOST;
    }
    if kind == kind::GREATER {
        return codes::GREATER;
    }
    codes::AT_LEAST
}

// The number of an operation, by its mark's kind.
#[tactic(auto, unfolding(codes::specs::Arithmetic::operation_at, syntax::specs::Builtins::operation_of))]
pub fn operation_code(kind: u8) -> u64
    ensures { (operation_at result ≡ operation_of kind) × (result < no_operation) }
{
    if kind == kind::MINUS {
        return codes::MINUS;
    }
    if kind == kind::PLUS {
        return codes::PLUS;
    }
    codes::TIMES
}

// The row of an atom of some sort.
pub fn atom_row(sort: u64, codes: AtomCodes) -> [u64; LITERAL]
    ensures { result ≡ sort ∷ codes.predicate ∷ 0 ∷ codes.terms }
{
    let terms = codes.terms;
    [
        sort,
        codes.predicate,
        codes::EQUAL,
        terms[0],
        terms[1],
        terms[2],
        terms[3],
        terms[4],
        terms[5],
        terms[6],
        terms[7],
    ]
}

// The row of a built-in.
pub fn built_in_row(
    comparison: u64,
    operation: u64,
    left: u64,
    right: u64,
    operand: u64,
) -> [u64; LITERAL]
    ensures { result ≡ 2 ∷ operation ∷ comparison ∷ left ∷ right ∷ operand ∷ 0 ∷ 0 ∷ 0 ∷ 0 ∷ 0 ∷ [] }
{
    [
        BUILTIN, operation, comparison, left, right, operand, 0, 0, 0, 0, 0,
    ]
}
