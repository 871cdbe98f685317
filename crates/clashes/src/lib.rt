// Facts that can't stand beside an earlier one, found by the chains of rows: one that repeats it, and one that differs from it in sign alone.
#![tactic(auto)]

ghost use Rattle.std.specs.Prelude.{◌≡◌, true, false, List, ℕ, ◌<◌};
ghost use Rattle.meaning.specs.Rules.{Bytes};
ghost use Rattle.tables.specs.WellFormed.{FactTable};
ghost use Rattle.chains.specs.Links.{Linked};
ghost use Rattle.clashes.specs.Clashes.{alike, Earlier, Clash, FirstClash, differ_in_sign, related};

use tables::{ARGUMENTS, ARITIES, FACT};

// Twice as many as arities: what a predicate's name is divided off by.
const SIGNED: u64 = 18;

// Why a fact can't stand beside an earlier one.
#[derive(Clone, Copy)]
pub enum Reason {
    // it repeats it
    Repeated,
    // the two differ in sign alone
    Opposed,
}

// A fact that clashes, and why.
#[derive(Clone, Copy)]
pub struct Clashing {
    pub reason: Reason,
    pub fact: usize,
}

// The predicates have one name and one arity, but not one sign.
fn differ_in_sign(p: u64, q: u64) -> bool
    ensures { result ≡ differ_in_sign p q }
{
    if p / SIGNED != q / SIGNED {
        return false;
    }
    if p % ARITIES != q % ARITIES {
        return false;
    }
    p / ARITIES % 2 != q / ARITIES % 2
}

// The predicates are the same or, if opposed, differ in sign alone.
fn related(opposed: bool, p: u64, q: u64) -> bool
    ensures { result ≡ related opposed p q }
{
    if opposed {
        return differ_in_sign(p, q);
    }
    p == q
}

// Fact j is fact k or, if opposed, fact k with the other sign.
fn alike(facts: &[u64], opposed: bool, j: usize, k: usize) -> bool
    requires { (count : ℕ) × FactTable facts.now count × (j < count) × (k < count) }
    ensures { (names : List Bytes) → result ≡ alike names facts.now opposed j k }
{
    let p = facts[j * FACT];
    let q = facts[k * FACT];
    if !related(opposed, p, q) {
        return false;
    }
    let arity = (p % ARITIES) as usize;
    let at = j * FACT + ARGUMENTS;
    let from = k * FACT + ARGUMENTS;
    lookup::same_values(&facts[at..at + arity], &facts[from..from + arity])
}

// A fact before fact k is the same or, if opposed, the same with the other sign.
fn earlier(facts: &[u64], links: &[u64], opposed: bool, k: usize) -> bool
    requires { (count : ℕ) × FactTable facts.now count × Linked links.now facts.now count × (k < count) }
    ensures { (names : List Bytes) → (result ≡ true → Earlier names facts.now opposed k) × (result ≡ false → Earlier names facts.now opposed k → ⊥) }
{
    let predicate = facts[k * FACT];
    let arity = (predicate % ARITIES) as usize;
    let at = k * FACT + ARGUMENTS;
    let c = chains::row_chain(predicate, &facts[at..at + arity]);
    let mut j = chains::first(links, c);
    while j < k {
        if alike(facts, opposed, j, k) {
            return true;
        }
        j = chains::next(links, c, j);
    }
    false
}

// Why fact k clashes with an earlier one, if it does.
pub fn clash(facts: &[u64], links: &[u64], k: usize) -> Option<Reason>
    requires { (count : ℕ) × FactTable facts.now count × Linked links.now facts.now count × (k < count) }
    ensures { (names : List Bytes) → Clash names facts.now k result }
{
    if earlier(facts, links, false, k) {
        return Some(Reason::Repeated);
    }
    if earlier(facts, links, true, k) {
        return Some(Reason::Opposed);
    }
    None
}

// The first fact that clashes with an earlier one.
pub fn first_clash(facts: &[u64], links: &[u64], count: usize) -> Option<Clashing>
    requires { FactTable facts.now count × Linked links.now facts.now count }
    ensures { (names : List Bytes) → FirstClash names facts.now count result }
{
    for fact in 0..count {
        if let Some(reason) = clash(facts, links, fact) {
            return Some(Clashing { reason, fact });
        }
    }
    None
}
