// How large the numbers of a rule's matchings can get: from the largest number of the facts, a bound for each variable and each operation.
// Where no bound is above the greatest number, no matching of the rule overflows, and none need be walked for that.
#![tactic(auto)]

ghost use Rattle.std.specs.Prelude.{◌≡◌, true, false, List, map, ℕ, ◌<◌, ◌≤◌, ◌-◌, length};
ghost use Rattle.meaning.specs.Sets.{In, any};
ghost use Rattle.meaning.specs.Rules.{Bytes};
ghost use Rattle.meaning.specs.Matchings.{Values};
ghost use Rattle.meaning.specs.Matcher.{complete};
ghost use Rattle.meaning.specs.Quick.{literal_overflows};
ghost use Rattle.codes.specs.Domains.{codes, code_in_range};
ghost use Rattle.tables.specs.Rows.{from, literal_at, equation_at, rule_at};
ghost use Rattle.tables.specs.WellFormed.{FactTable, Inside, BodyRow, EquationRow, RuleRow};
ghost use Rattle.magnitudes.specs.Sizes.{size, greatest, Largest, Within, Modest, TermWithin, SideWithin, StaysInRange};

use codes::{NO_VALUE, TIMES};
use tables::{
    ARGUMENTS, ARITIES, BUILTIN, EQUATION_PLACES, EQUATIONS, FACT, FIRST, FIRST_LITERAL,
    HAS_OPERATION, LITERAL, LITERALS, NO_OPERATION, OPERATION, RULE, SECOND, SORT, TERMS,
};

// The code of 0.
const ZERO: u64 = 1_000_000_017;

const GREATEST: u64 = 1_000_000_000;

// How far a code's number lies from 0; 0 where it is no number's.
#[tactic(auto, unfolding(crate::specs::Sizes::size))]
fn size(code: u64) -> u64
    ensures { result ≡ size code }
{
    if !codes::is_number(code) {
        return 0;
    }
    code.abs_diff(ZERO)
}

// The largest of some codes' sizes and a size.
fn larger(codes: &[u64], most: u64) -> u64
    requires { most ≤ greatest }
    ensures { (result ≤ greatest) × (most ≤ result) × ((c : ℕ) → In c codes.now → size c ≤ result) }
{
    codes
        .iter()
        .fold(most, |largest, code| largest.max(size(*code)))
}

// The size of the largest number of the facts.
pub fn largest(facts: &[u64], count: usize) -> u64
    requires { FactTable facts.now count }
    ensures { (result ≤ greatest) × Largest facts.now count result }
{
    let mut most: u64 = 0;
    for k in 0..count {
        let arity = (facts[k * FACT] % ARITIES) as usize;
        let from = k * FACT + ARGUMENTS;
        most = larger(&facts[from..from + arity], most);
    }
    most
}

// A bound for a term's value.
fn term_bound(term: u64, bounds: &[u64]) -> u64
    requires { (16 ≤ length bounds.now) × Modest bounds.now }
    ensures { TermWithin term bounds.now result }
{
    if NO_VALUE <= term {
        return size(term);
    }
    let x = term as usize;
    bounds[x]
}

// A bound for the right side of built-in l; more than the greatest number where its operation may leave the range.
fn side_bound(literals: &[u64], l: usize, bounds: &[u64]) -> u64
    requires { Inside literals.now l × (16 ≤ length bounds.now) × Modest bounds.now }
    ensures { result ≤ greatest → SideWithin literals.now l bounds.now result }
{
    let first = term_bound(literals[l * LITERAL + FIRST], bounds);
    let operation = literals[l * LITERAL + OPERATION];
    if operation == NO_OPERATION {
        return first;
    }
    let second = term_bound(literals[l * LITERAL + SECOND], bounds);
    if operation < TIMES {
        return first + second;
    }
    first * second
}

// The equations at these places bound their left variables, one after the other; false where one may leave the range.
fn equations_stay(literals: &[u64], places: &[u64], bounds: &mut [u64]) -> bool
    requires { ((l : ℕ) → In l places.now → EquationRow literals.now l) × (16 ≤ length bounds.old) × Modest bounds.old }
    ensures { (length bounds.new ≡ length bounds.old) × Modest bounds.new × (result ≡ true → (names : List Bytes) (ρ : Values ℕ) → Within bounds.old ρ → Within bounds.new (complete (codes names) (map (equation_at literals.now) places.now) ρ)) }
{
    for place in places {
        let l = *place as usize;
        let bound = side_bound(literals, l, bounds);
        if GREATEST < bound {
            return false;
        }
        let x = literals[l * LITERAL + TERMS] as usize;
        bounds[x] = bound;
    }
    true
}

// The operation of literal l, if it has one, stays in range.
fn literal_stays(literals: &[u64], l: usize, bounds: &[u64]) -> bool
    requires { BodyRow literals.now l × (16 ≤ length bounds.now) × Modest bounds.now }
    ensures { result ≡ true → (names : List Bytes) (ρ : Values ℕ) → Within bounds.now ρ → literal_overflows (codes names) code_in_range ρ (literal_at literals.now l) ≡ false }
{
    if literals[l * LITERAL + SORT] < BUILTIN {
        return true;
    }
    if literals[l * LITERAL + OPERATION] == NO_OPERATION {
        return true;
    }
    side_bound(literals, l, bounds) <= GREATEST
}

// The operations of the literals from first up to end stay in range.
fn literals_stay(literals: &[u64], first: usize, end: usize, bounds: &[u64]) -> bool
    requires { ((l : ℕ) → first ≤ l → l < end → BodyRow literals.now l) × (16 ≤ length bounds.now) × Modest bounds.now }
    ensures { result ≡ true → (names : List Bytes) (ρ : Values ℕ) → Within bounds.now ρ → any (literal_overflows (codes names) code_in_range ρ) (from (literal_at literals.now) (end - first) first) ≡ false }
{
    (first..end).all(|l| literal_stays(literals, l, bounds))
}

// No operation of rule r can leave the range, where no number of the facts is larger than `most`.
pub fn stays_in_range(rules: &[u64], literals: &[u64], r: usize, most: u64) -> bool
    requires { RuleRow rules.now literals.now r × (most ≤ greatest) }
    ensures { result ≡ true → StaysInRange (rule_at rules.now literals.now r) most }
{
    if rules[r * RULE + HAS_OPERATION] == 0 {
        return true;
    }
    let mut bounds = [most; 16];
    let count = rules[r * RULE + EQUATIONS] as usize;
    let at = r * RULE + EQUATION_PLACES;
    if !equations_stay(literals, &rules[at..at + count], &mut bounds) {
        return false;
    }
    let first = rules[r * RULE + FIRST_LITERAL] as usize;
    let length = rules[r * RULE + LITERALS] as usize;
    literals_stay(literals, first, first + length, &bounds)
}
