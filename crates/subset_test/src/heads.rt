// The heads of a rule at a matching, as a mask.
ghost use Rattle.std.specs.Prelude.{◌+◌, ◌≤◌, length};
ghost use Rattle.store.specs.Store.{literal_room, facts_in};
ghost use Rattle.reach.specs.Reach.{Apart};
ghost use Rattle.settle.specs.Settling.{FactTables};
ghost use Rattle.subsets.specs.Table.{most_facts};
ghost use Rattle.subset_test.specs.Stands.{HeadsMasked};

// A bit for each of these heads that is a fact at these values, at its place.
pub fn heads_mask(store: &[u64], count: usize, first: usize, heads: usize, values: &[u64]) -> u64
    requires { FactTables store.now count × Apart (facts_in store.now) count × (count ≤ most_facts) × (first + heads ≤ literal_room) × (16 ≤ length values.now) }
    ensures { HeadsMasked store.now count first heads values.now result }
{
    let mut mask: u64 = 0;
    for l in first..first + heads {
        let place = leaf::place(store, count, l, values);
        if place < count {
            mask |= 1u64 << place;
        }
    }
    mask
}
