// Whether a rule asks which of two values comes first: then names and strings need ranks.
#![tactic(auto)]

ghost use Rattle.std.specs.Prelude.{◌≡◌, false, ◌<◌, ◌≤◌, ◌+◌, length};
ghost use Rattle.store.specs.Store.{store_size, literal_room};
ghost use Rattle.orders.specs.Orders.{Plain, PlainRule, RulesInside};

use codes::LESS;
use store::{literal_column, rule_column};
use tables::{COMPARISON, FIRST_LITERAL, LITERALS};

// One of the literals from first up to end does.
fn body_orders(store: &[u64], first: usize, end: usize) -> bool
    requires { (length store.now ≡ store_size) × (end ≤ literal_room) }
    ensures { result ≡ false → Plain store.now first end }
{
    for l in first..end {
        if LESS <= literal_column(store, l, COMPARISON) {
            return true;
        }
    }
    false
}

// One of so many rules does.
pub fn any_orders(store: &[u64], total: usize) -> bool
    requires { RulesInside store.now total }
    ensures { result ≡ false → PlainRule store.now total }
{
    for r in 0..total {
        let first = rule_column(store, r, FIRST_LITERAL) as usize;
        let length = rule_column(store, r, LITERALS) as usize;
        if body_orders(store, first, first + length) {
            return true;
        }
    }
    false
}
