// The table of names, in one slice: how many there are, the head of each slot, and a row for each name.
ghost use Rattle.std.specs.Prelude.{◌≡◌, ◌≤◌, ◌<◌, length};
ghost use Rattle.names.specs.Table.{slots, first_row, capacity, slot_of, count, head, link, span_of, with_row, Addable};

use crate::MOST_NAMES;
use texts::place::{Span, span_from};
use texts::places::{number_at, put_number};

const COUNT: usize = 0;

const FIRST_HEAD: usize = 1;

const SLOTS: usize = 4096;

pub const FIRST_ROW: usize = FIRST_HEAD + SLOTS;

// The numbers of a row: where the name's bytes start, how many they are, and the link to an earlier name of its slot.
pub const ROW: usize = 3;

const LEN: usize = 1;

const LINK: usize = 2;

// Any odd number spreads the bytes over the slots; with this one few names share a slot.
const FACTOR: usize = 241;

// The slot of a name, a hash of its bytes.
pub fn slot_of(name: &[u8]) -> usize
    ensures { result ≡ slot_of name.now }
{
    let mut slot: usize = 0;
    for byte in name {
        slot = (slot * FACTOR + usize::from(*byte)) % SLOTS;
    }
    slot
}

// How many names there is room for.
pub fn capacity(table: &[u32]) -> usize
    requires { first_row ≤ length table.now }
    ensures { result ≡ capacity (length table.now) }
{
    ((table.len() - FIRST_ROW) / ROW).min(MOST_NAMES)
}

// How many names there are.
pub fn count(table: &[u32]) -> usize
    requires { first_row ≤ length table.now }
    ensures { result ≡ count table.now }
{
    number_at(table, COUNT)
}

// One more than the number of the last name in a slot, or 0.
pub fn head(table: &[u32], slot: usize) -> usize
    requires { (first_row ≤ length table.now) × (slot < slots) }
    ensures { result ≡ head table.now slot }
{
    number_at(table, slot + FIRST_HEAD)
}

// One more than the number of the name before this one in its slot, or 0.
pub fn link(table: &[u32], number: usize) -> usize
    requires { number < capacity (length table.now) }
    ensures { result ≡ link table.now number }
{
    number_at(table, FIRST_ROW + number * ROW + LINK)
}

// Where a name's bytes stand in the two texts.
pub fn span(table: &[u32], number: usize) -> Span
    requires { number < capacity (length table.now) }
    ensures { result ≡ span_of table.now number }
{
    let at = FIRST_ROW + number * ROW;
    span_from(number_at(table, at), number_at(table, at + LEN))
}

// A row more, for a name whose bytes these are: its link is the head of its slot, and then the head is one more than its number.
pub fn add(table: &mut [u32], slot: usize, span: Span)
    requires { Addable table.old slot span }
    ensures { table.new ≡ with_row table.old slot span }
{
    let number = count(&*table);
    let link = head(&*table, slot);
    let at = FIRST_ROW + number * ROW;
    put_number(table, at, span.start);
    put_number(table, at + LEN, span.len);
    put_number(table, at + LINK, link);
    put_number(table, slot + FIRST_HEAD, number + 1);
    put_number(table, COUNT, number + 1);
}
