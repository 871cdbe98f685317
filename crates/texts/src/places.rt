// Tables of 32-bit numbers in a lent slice, and places kept in one, four numbers each: where a place starts, how many bytes it has, its line
// and its column.
ghost use Rattle.std.specs.Prelude.{◌≡◌, ◌+◌, ◌*◌, ◌≤◌, ◌<◌, length, get_or, set};
ghost use Rattle.texts.specs.Places.{number_limit, place_stride, place_in, with_place, Storable};

use crate::place::Place;

// The numbers of a place.
pub const PLACE: usize = 4;

// The number at a place of the table.
pub fn number_at(table: &[u32], at: usize) -> usize
    requires { at < length table.now }
    ensures { result ≡ get_or table.now at 0 }
{
    table[at] as usize
}

// The number at a place of the table is another.
pub fn put_number(table: &mut [u32], at: usize, number: usize)
    requires { (at < length table.old) × (number < number_limit) }
    ensures { table.new ≡ set table.old at number }
{
    table[at] = number as u32;
}

// The place with a number.
pub fn place_in(places: &[u32], i: usize) -> Place
    requires { i * place_stride + place_stride ≤ length places.now }
    ensures { result ≡ place_in places.now i }
{
    let at = i * PLACE;
    Place {
        start: number_at(places, at),
        len: number_at(places, at + 1),
        line: number_at(places, at + 2),
        column: number_at(places, at + 3),
    }
}

// The place with a number is another.
pub fn put_place(places: &mut [u32], i: usize, place: Place)
    requires { (i * place_stride + place_stride ≤ length places.old) × Storable place }
    ensures { places.new ≡ with_place places.old i place }
{
    let at = i * PLACE;
    put_number(places, at, place.start);
    put_number(places, at + 1, place.len);
    put_number(places, at + 2, place.line);
    put_number(places, at + 3, place.column);
}
