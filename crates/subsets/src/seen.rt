// A cache of the pairs, each of a body and heads, that have been ruled out. Symmetric rules meet the same pair many times, and ruling it out writes
// thousands of words.
ghost use Rattle.std.specs.Prelude.{◌^◌, ◌<◌, ◌≤◌, length};
ghost use Rattle.subsets.specs.Table.{most_facts, most_words, RulesOut};
ghost use Rattle.subsets.specs.Seen.{slots, Seen, NoneSeen};

use crate::rule_out;

// The slots of a cache.
const SLOTS: u64 = 2_048;

// The numbers of a cache: a body and heads for each slot.
const SIZE: usize = 4_096;

// A cache at first. A body and heads that have a fact in common refute nothing, so no pair in it says anything.
pub fn none_seen() -> [u64; SIZE]
    ensures { NoneSeen result }
{
    [1u64; SIZE]
}

// The slot of a pair. Any would be right; these factors spread masks of few facts well.
fn slot_of(body: u64, heads: u64) -> usize
    requires { (body < 2 ^ most_facts) × (heads < 2 ^ most_facts) }
    ensures { result < slots }
{
    ((body * 640_836_891 + heads * 2_654_435_761) / 65_536 % SLOTS) as usize
}

// Rules out each subset that has all of the body and none of the heads, unless the cache has the pair. It has the pair from then on.
pub fn rule_out_once(table: &mut [u64], seen: &mut [u64], body: u64, heads: u64)
    requires { (length table.old ≤ most_words) × (body < 2 ^ most_facts) × (heads < 2 ^ most_facts) × Seen seen.old table.old }
    ensures { RulesOut body heads table.old table.new × Seen seen.new table.new }
{
    let at = slot_of(body, heads) * 2;
    if seen[at] == body {
        if seen[at + 1] == heads {
            return;
        }
    }
    rule_out(table, body, heads);
    seen[at] = body;
    seen[at + 1] = heads;
}
