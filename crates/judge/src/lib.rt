// The judgement over the store: refusal 8, or the verdict.
#![tactic(auto)]

ghost use Rattle.std.specs.Prelude.{◌≡◌, true, false, List, ℕ, ◌<◌, ◌≤◌, length};
ghost use Rattle.meaning.specs.Rules.{disjunctive};
ghost use Rattle.store.specs.Store.{store_size, rule_room};
ghost use Rattle.matchings.specs.Tables.{Tables};
ghost use Rattle.search.specs.Searched.{Scanning};
ghost use Rattle.derivation.specs.Rounds.{rules_for};
ghost use Rattle.subsets.specs.Table.{most_facts};
ghost use Rattle.judge.specs.Judged.{broken_judgement, Rejects, JudgedInRange, Judges};

use derived_set::Derived;
use search::{Scan, first_stop};
use store::positives;
use subset_test::least_smaller;

pub mod several;

// The rule and the positions are from 0.
#[derive(Clone, Copy)]
pub enum Judgement {
    // the first rule in which an operation leaves the range
    OutOfRange {
        rule: usize,
    },
    // the first broken instance: its rule, and as many positions as `length` says
    Unsatisfied {
        rule: usize,
        length: usize,
        positions: [u64; 16],
    },
    Accepted {
        rounds: u16,
    },
    // accepted by the test against every proper subset, which gives no rounds
    Minimal,
    Smaller {
        set: Derived,
    },
}

// The judgement of a broken instance of this rule.
fn broken_at(store: &[u64], rule: usize, positions: [u64; 16]) -> Judgement
    requires { (length store.now ≡ store_size) × (rule < rule_room) }
    ensures { result ≡ broken_judgement store.now rule positions }
{
    Judgement::Unsatisfied {
        rule,
        length: positives(store, rule),
        positions,
    }
}

// A candidate that is not accepted: the first broken instance or, where none is broken, the atoms that are derived.
fn rejected(store: &[u64], ranks: &[u32], scan: Scan, set: Derived) -> Judgement
    requires { Scanning store.now scan × (scan.range ≡ false) }
    ensures { Rejects ranks.now store.now scan set result }
{
    let mut positions = [0u64; 16];
    let rule = first_stop(store, ranks, &mut positions, scan);
    if rule < scan.total {
        return broken_at(store, rule, positions);
    }
    Judgement::Smaller { set }
}

// The verdict where no operation leaves the range and no rule has several heads. The rounds are worked out in the table, and lent places are
// written once they are all known. Instances are walked in order only where one is broken or a fact is not derived.
fn verdict(
    store: &[u64],
    ranks: &[u32],
    scan: Scan,
    table: &mut [u16],
    rounds: &mut [u16],
) -> Judgement
    requires { Scanning store.now scan × (scan.range ≡ false) × (length table.old ≡ scan.count) × (scan.count ≤ length rounds.old) × (disjunctive (rules_for store.now scan.total) ≡ false) }
    ensures { JudgedInRange ranks.now store.now scan.count scan.total rounds.old rounds.new result }
{
    let Some(limit) = derivation::rounds(store, ranks, scan.count, scan.total, table) else {
        return rejected(store, ranks, scan, Derived::empty());
    };
    let set = limit.set;
    if set.size() < scan.count {
        return rejected(store, ranks, scan, set);
    }
    rounds[..scan.count].copy_from_slice(table);
    Judgement::Accepted {
        rounds: limit.rounds,
    }
}

// The verdict where no operation leaves the range and some rule has several heads: the first broken instance or, where none is broken, the test
// against every proper subset.
fn tested(store: &[u64], ranks: &[u32], scan: Scan) -> Judgement
    requires { Scanning store.now scan × (scan.range ≡ false) × (scan.count ≤ most_facts) × (disjunctive (rules_for store.now scan.total) ≡ true) }
    ensures { (rounds : List ℕ) → JudgedInRange ranks.now store.now scan.count scan.total rounds rounds result }
{
    let mut positions = [0u64; 16];
    let rule = first_stop(store, ranks, &mut positions, scan);
    if rule < scan.total {
        return broken_at(store, rule, positions);
    }
    match least_smaller(store, ranks, scan.count, scan.total) {
        Some(set) => Judgement::Smaller { set },
        None => Judgement::Minimal,
    }
}

// Refusal 8, or the verdict; each atom's round stands in its place of the lent ones where the candidate is accepted and no rule has several heads.
pub fn judge(
    store: &[u64],
    ranks: &[u32],
    count: usize,
    total: usize,
    several: bool,
    rounds: &mut [u16],
) -> Judgement
    requires { Tables store.now count total × (count ≤ length rounds.old) × (several ≡ disjunctive (rules_for store.now total)) × (several ≡ true → count ≤ most_facts) }
    ensures { Judges ranks.now store.now count total rounds.old rounds.new result }
{
    let most = magnitudes::largest(store::facts(store), count);
    let mut positions = [0u64; 16];
    let mut scan = Scan {
        count,
        total,
        range: true,
        most,
    };
    let over = first_stop(store, ranks, &mut positions, scan);
    if over < total {
        return Judgement::OutOfRange { rule: over };
    }
    scan.range = false;
    if several {
        return tested(store, ranks, scan);
    }
    let mut table = [0u16; 1024];
    verdict(store, ranks, scan, &mut table[0..count], rounds)
}
