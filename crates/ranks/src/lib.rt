// Ranks of the names of a table, strings among them: their numbers are sorted by merging, and a name's rank is the place of its number.
#![tactic(auto)]

ghost use Rattle.std.specs.Prelude.{◌≡◌, not, ℕ, ◌+◌, ◌≤◌, ◌<◌, length, get_or, take, drop};
ghost use Rattle.meaning.specs.Values.{bytes_before};
ghost use Rattle.names.specs.Table.{Table, names_of, bytes_of, count, most_names};
ghost use Rattle.ranks.specs.Ranks.{Ranked};
ghost use Rattle.ranks.specs.Sorting.{Sorted, Chosen, Merges, Sorts, Apart, Inverse, numbers};

use names::bytewise::comes_before;

// The numbers from 0 on, one in each place.
#[tactic(auto, using(crate::proofs::Filling::numbered_more), unfolding(crate::specs::Sorting::numbers))]
fn number(order: &mut [u32])
    requires { length order.old ≤ most_names }
    ensures { order.new ≡ numbers (length order.old) }
{
    for (i, number) in order.iter_mut().enumerate() {
        *number = i as u32;
    }
}

// Does the name with the second number not come before the one with the first?
fn in_order<'a>(program: &'a [u8], output: &'a [u8], names: &[u32], first: u32, second: u32) -> bool
    requires { Table program.now output.now names.now }
    ensures { result ≡ not (bytes_before (bytes_of program.now output.now names.now second) (bytes_of program.now output.now names.now first)) }
{
    let one = names::bytes_of(program, output, names, first as usize);
    let other = names::bytes_of(program, output, names, second as usize);
    !comes_before(other, one)
}

// Is the left number at `i` the next, and not the right one at `j`? One side may have no more; else the names tell.
fn left_is_next<'a>(
    program: &'a [u8],
    output: &'a [u8],
    names: &[u32],
    left: &[u32],
    i: usize,
    right: &[u32],
    j: usize,
) -> bool
    requires { Table program.now output.now names.now × (i ≤ length left.now) × (j ≤ length right.now) × (i + j < length left.now + length right.now) }
    ensures { Chosen (names_of program.now output.now names.now) left.now i right.now j result }
{
    if left.len() <= i {
        return false;
    }
    if right.len() <= j {
        return true;
    }
    in_order(program, output, names, left[i], right[j])
}

// The numbers of two sorted slices, all of them and sorted.
fn merge<'a>(
    program: &'a [u8],
    output: &'a [u8],
    names: &[u32],
    left: &[u32],
    right: &[u32],
    merged: &mut [u32],
)
    requires { Table program.now output.now names.now × Sorted (names_of program.now output.now names.now) left.now × Sorted (names_of program.now output.now names.now) right.now × (length merged.old ≡ length left.now + length right.now) }
    ensures { Merges (names_of program.now output.now names.now) left.now right.now merged.new }
{
    // Two places are counted, and each turn moves one of them: no `for` over one slice says that more plainly.
    let mut i: usize = 0;
    let mut j: usize = 0;
    while i + j < merged.len() {
        if left_is_next(program, output, names, left, i, right, j) {
            merged[i + j] = left[i];
            i += 1;
        } else {
            merged[i + j] = right[j];
            j += 1;
        }
    }
}

// Two sorted parts of the numbers, split at `middle`, become one.
fn join<'a>(
    program: &'a [u8],
    output: &'a [u8],
    names: &[u32],
    order: &mut [u32],
    middle: usize,
    scratch: &mut [u32],
)
    requires { Table program.now output.now names.now × (middle ≤ length order.old) × (length scratch.old ≡ length order.old) × Sorted (names_of program.now output.now names.now) (take middle order.old) × Sorted (names_of program.now output.now names.now) (drop middle order.old) }
    ensures { Sorts (names_of program.now output.now names.now) order.old order.new }
{
    merge(
        program,
        output,
        names,
        &order[0..middle],
        &order[middle..],
        scratch,
    );
    order.copy_from_slice(&*scratch);
}

// Sorts numbers by their names: each half, and then both together.
fn sort<'a>(
    program: &'a [u8],
    output: &'a [u8],
    names: &[u32],
    order: &mut [u32],
    scratch: &mut [u32],
)
    requires { Table program.now output.now names.now × (length scratch.old ≡ length order.old) }
    ensures { Sorts (names_of program.now output.now names.now) order.old order.new }
{
    if order.len() < 2 {
        return;
    }
    let middle = order.len() / 2;
    sort(
        program,
        output,
        names,
        &mut order[0..middle],
        &mut scratch[0..middle],
    );
    sort(
        program,
        output,
        names,
        &mut order[middle..],
        &mut scratch[middle..],
    );
    join(program, output, names, order, middle, scratch);
}

// At each number of the order, its place there: the names' ranks.
fn place(order: &[u32], ranks: &mut [u32])
    requires { (length order.now ≤ most_names) × Apart order.now × ((k : ℕ) → k < length order.now → get_or order.now k 0 < length ranks.old) }
    ensures { Inverse order.now ranks.new }
{
    for (k, number) in order.iter().enumerate() {
        ranks[*number as usize] = k as u32;
    }
}

// The ranks of the names of a table, with as many places lent to sort their numbers in.
pub fn rank_within<'a>(
    program: &'a [u8],
    output: &'a [u8],
    names: &[u32],
    order: &mut [u32],
    ranks: &mut [u32],
)
    requires { Table program.now output.now names.now × (length order.old ≡ count names.now) × (length ranks.old ≡ count names.now) }
    ensures { Ranked (names_of program.now output.now names.now) ranks.new }
{
    number(order);
    sort(program, output, names, order, ranks);
    place(&*order, ranks);
}

// Places for the numbers of as many names as any table has.
fn space() -> [u32; names::MOST_NAMES] {
    [0; names::MOST_NAMES]
}

// The ranks of the names of a table.
pub fn rank_names<'a>(program: &'a [u8], output: &'a [u8], names: &[u32], ranks: &mut [u32])
    requires { Table program.now output.now names.now × (length ranks.old ≡ count names.now) }
    ensures { Ranked (names_of program.now output.now names.now) ranks.new }
{
    let mut order = space();
    let size = ranks.len();
    rank_within(program, output, names, &mut order[0..size], ranks);
}
