// One bit for each subset of at most twenty facts: whether a matching of a rule rules it out, and the first that none does.
#![tactic(auto)]

ghost use Rattle.std.specs.Prelude.{◌≡◌, suc, ◌*◌, ◌^◌, ◌<◌, ◌≤◌, length};
ghost use Rattle.std.specs.Int.Bits.{bit_and};
ghost use Rattle.subsets.specs.Table.{most_facts, most_words, AllOut, RulesOut, FirstLeft};
ghost use Rattle.subsets.specs.Words.{bit_facts, word_facts, Column, Leaves, WordsMarked};

pub mod seen;

// The bits of a word, and the facts that choose one of them.
const BITS: usize = 64;

const BIT_FACTS: u64 = 6;

// A word of ones.
const FULL: u64 = 0xFFFF_FFFF_FFFF_FFFF;

// Of the numbers in `left`, those that suit a matching in this fact too; `having` are the numbers that have the fact.
fn cut(left: u64, having: u64, fact: u64, body: u64, heads: u64) -> u64
    requires { (fact < bit_facts) × Column fact having × Leaves fact body heads left }
    ensures { Leaves (suc fact) body heads result }
{
    let in_body = (body >> fact) % 2 == 1;
    let in_heads = (heads >> fact) % 2 == 1;
    if in_body {
        if in_heads {
            return 0;
        }
        return left & having;
    }
    if in_heads {
        return left & !having;
    }
    left
}

// The bits of a word that suit a matching in the facts that choose a bit.
fn pattern(body: u64, heads: u64) -> u64
    ensures { Leaves bit_facts body heads result }
{
    let left = cut(FULL, 0xAAAA_AAAA_AAAA_AAAA, 0, body, heads);
    let left = cut(left, 0xCCCC_CCCC_CCCC_CCCC, 1, body, heads);
    let left = cut(left, 0xF0F0_F0F0_F0F0_F0F0, 2, body, heads);
    let left = cut(left, 0xFF00_FF00_FF00_FF00, 3, body, heads);
    let left = cut(left, 0xFFFF_0000_FFFF_0000, 4, body, heads);
    cut(left, 0xFFFF_FFFF_0000_0000, 5, body, heads)
}

// Puts the pattern into each word whose number has all of the body and none of the heads. These numbers are `body` and any of the facts that are
// in neither: adding one to the latter with a one at each other fact, so that it carries past those, gives the next.
fn mark_words(table: &mut [u64], pattern: u64, body: usize, heads: usize)
    requires { (length table.old ≤ most_words) × (body < 2 ^ word_facts) × (heads < 2 ^ word_facts) × (bit_and body heads ≡ 0) }
    ensures { WordsMarked pattern body heads table.old table.new }
{
    let fixed = body | heads;
    let mut others: usize = 0;
    while others + body < table.len() {
        let word = others + body;
        table[word] |= pattern;
        others = (others + fixed + 1) & !fixed;
    }
}

// Rules out each subset that has all of the body and none of the heads.
fn rule_out(table: &mut [u64], body: u64, heads: u64)
    requires { (length table.old ≤ most_words) × (body < 2 ^ most_facts) × (heads < 2 ^ most_facts) }
    ensures { RulesOut body heads table.old table.new }
{
    // no subset has a fact and lacks it
    if body & heads != 0 {
        return;
    }
    let bits = pattern(body, heads);
    mark_words(
        table,
        bits,
        (body >> BIT_FACTS) as usize,
        (heads >> BIT_FACTS) as usize,
    );
}

// A subset up to which all are ruled out, by whole words.
fn full_words(table: &[u64], most: usize) -> usize
    requires { most ≤ 64 * length table.now }
    ensures { AllOut table.now result × (result ≤ most) }
{
    let words = most / BITS;
    for (w, word) in table[..words].iter().enumerate() {
        if *word != FULL {
            return w * BITS;
        }
    }
    words * BITS
}

// The first of the subsets below `most` that is not ruled out, or `most`.
pub fn first_left(table: &[u64], most: usize) -> usize
    requires { most ≤ 64 * length table.now }
    ensures { FirstLeft table.now most result }
{
    for at in full_words(table, most)..most {
        if (table[at / BITS] >> (at % BITS)) % 2 == 0 {
            return at;
        }
    }
    most
}
