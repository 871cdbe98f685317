// The test against every proper subset: of those that satisfy the reduct, the one whose number is least. A subset's number has a bit for each
// fact that it keeps, the first fact's being the lowest.
#![tactic(auto)]

ghost use Rattle.std.specs.Prelude.{◌≡◌, ◌*◌, ◌^◌, ◌≤◌, length};
ghost use Rattle.matchings.specs.Tables.{Tables};
ghost use Rattle.subsets.specs.Table.{most_facts, most_words};
ghost use Rattle.subsets.specs.Seen.{Seen};
ghost use Rattle.subset_test.specs.Smaller.{Refutes, own_number, Blank, Unrefuted, KeptFacts, Tested};

use crate::walk::{Stand, refute_from};
use bodies::Progress;
use derived_set::Derived;
use lookahead::Goal;
use subsets::first_left;
use subsets::seen::none_seen;

pub mod heads;
pub mod walk;

// The words of a table with a bit for each subset of twenty facts.
const WORDS: usize = 16_384;

// The bits of a word.
const BITS: usize = 64;

// Rules out each subset that a matching of some rule refutes.
fn refute_all(
    store: &[u64],
    ranks: &[u32],
    count: usize,
    total: usize,
    table: &mut [u64],
    seen: &mut [u64],
)
    requires { Tables store.now count total × (count ≤ most_facts) × (length table.old ≤ most_words) × Seen seen.old table.old }
    ensures { Refutes ranks.now store.now count total total table.old table.new }
{
    let mut values = [0u64; 16];
    for r in 0..total {
        let goal = Goal {
            count,
            rule: r,
            range: false,
        };
        let progress = Progress { done: 0, bound: 0 };
        let start = Stand {
            goal,
            next: 0,
            progress,
            body: 0,
        };
        refute_from(store, ranks, &mut values, table, seen, start);
    }
}

// The facts whose bits a subset's number has.
fn kept_facts(number: usize, count: usize) -> Derived
    requires { count ≤ most_facts }
    ensures { KeptFacts number count result }
{
    let mut set = Derived::empty();
    for a in 0..count {
        if (number >> a) % 2 == 1 {
            set = set.mark(a);
        }
    }
    set
}

// How many subsets so many facts have.
fn subsets_of(count: usize) -> usize
    requires { count ≤ most_facts }
    ensures { result ≡ 2 ^ count }
{
    1usize << count
}

// The words of a table with a bit for each subset of so many facts.
fn words_for(count: usize) -> usize
    requires { count ≤ most_facts }
    ensures { (2 ^ count ≤ 64 * result) × (result ≤ most_words) }
{
    (subsets_of(count) + (BITS - 1)) / BITS
}

// The candidate's own number: it has all the facts.
fn own_number(count: usize) -> usize
    requires { count ≤ most_facts }
    ensures { result ≡ own_number count }
{
    subsets_of(count) - 1
}

// The first number that no matching refutes, or the candidate's own. The table is lent without a one, and the cache as it is at first.
fn first_unrefuted(
    store: &[u64],
    ranks: &[u32],
    count: usize,
    total: usize,
    table: &mut [u64],
    seen: &mut [u64],
) -> usize
    requires { Tables store.now count total × (count ≤ most_facts) × Blank count table.old × Seen seen.old table.old }
    ensures { Unrefuted ranks.now store.now count total result }
{
    refute_all(store, ranks, count, total, table, seen);
    first_left(table, own_number(count))
}

// The proper subset that satisfies the reduct and has the least number, if one does.
pub fn least_smaller(store: &[u64], ranks: &[u32], count: usize, total: usize) -> Option<Derived>
    requires { Tables store.now count total × (count ≤ most_facts) }
    ensures { Tested ranks.now store.now count total result }
{
    let mut table = [0u64; WORDS];
    let mut seen = none_seen();
    let words = words_for(count);
    let number = first_unrefuted(store, ranks, count, total, &mut table[0..words], &mut seen);
    if number < own_number(count) {
        return Some(kept_facts(number, count));
    }
    None
}
