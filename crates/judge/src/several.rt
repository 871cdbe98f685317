// Whether some rule has several heads.
ghost use Rattle.std.specs.Prelude.{◌≡◌, ◌≤◌, length};
ghost use Rattle.meaning.specs.Rules.{disjunctive};
ghost use Rattle.store.specs.Store.{store_size, rule_room};
ghost use Rattle.derivation.specs.Rounds.{rules_for};

use store::rule_column;
use tables::HEADS;

// Of the first rules, one has two heads or more.
pub fn several_heads(store: &[u64], total: usize) -> bool
    requires { (length store.now ≡ store_size) × (total ≤ rule_room) }
    ensures { result ≡ disjunctive (rules_for store.now total) }
{
    for r in 0..total {
        if 1 < rule_column(store, r, HEADS) {
            return true;
        }
    }
    false
}
