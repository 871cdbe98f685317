// The six comparisons on codes, with no text: two names or two strings come in the order of their ranks, and all other codes in their own.
#![tactic(auto)]

ghost use Rattle.std.specs.Prelude.{◌≡◌, true, List, ◌≤◌, ◌<◌, length, get_or};
ghost use Rattle.meaning.specs.Rules.{Bytes};
ghost use Rattle.codes.specs.Codes.{no_value, first_name};
ghost use Rattle.codes.specs.Arithmetic.{comparison_at};
ghost use Rattle.codes.specs.Domains.{kind_start, place_of, is_text, two_texts, codes};
ghost use Rattle.comparing.specs.Compared.{Compared};

use codes::{FIRST_NAME, FIRST_STRING, LESS};

// The first code of the kind: names, or strings.
#[tactic(auto, unfolding(codes::specs::Domains::kind_start))]
fn kind_start(code: u64) -> u64
    ensures { result ≡ kind_start code }
{
    if code < FIRST_STRING {
        return FIRST_NAME;
    }
    FIRST_STRING
}

// The place in the list of what a name's or a string's code stands for.
fn place_of(code: u64) -> u64
    requires { first_name ≤ code }
    ensures { result ≡ place_of code }
{
    code - kind_start(code)
}

// A name's or a string's code, in a list of so many.
#[tactic(auto, unfolding(codes::specs::Domains::is_text))]
fn is_text(count: usize, code: u64) -> bool
    ensures { result ≡ is_text count code }
{
    if code < FIRST_NAME {
        return false;
    }
    (place_of(code) as usize) < count
}

// Two names or two strings.
#[tactic(auto, unfolding(codes::specs::Domains::two_texts))]
fn two_texts(count: usize, first: u64, second: u64) -> bool
    ensures { result ≡ two_texts count first second }
{
    if kind_start(first) != kind_start(second) {
        return false;
    }
    if !is_text(count, first) {
        return false;
    }
    is_text(count, second)
}

// The rank of the name or the string that a code stands for.
fn rank_of(ranks: &[u32], code: u64) -> u64
    requires { is_text (length ranks.now) code ≡ true }
    ensures { result ≡ get_or ranks.now (place_of code) 0 }
{
    u64::from(ranks[place_of(code) as usize])
}

// Two codes of values. Numbers are told first, as they are compared most.
pub fn compare(ranks: &[u32], comparison: u64, first: u64, second: u64) -> bool
    requires { (no_value < first) × (no_value < second) }
    ensures { (names : List Bytes) → Compared names ranks.now comparison → result ≡ (codes names).compare (comparison_at comparison) first second }
{
    if comparison < LESS {
        return codes::compare_numbers(comparison, first, second);
    }
    if first < FIRST_NAME {
        return codes::compare_numbers(comparison, first, second);
    }
    if two_texts(ranks.len(), first, second) {
        return codes::compare_numbers(comparison, rank_of(ranks, first), rank_of(ranks, second));
    }
    codes::compare_numbers(comparison, first, second)
}
