// Names to numbers: the number of a name is its place in the list of the distinct names, in the order in which they are first met.
// The bytes stay where they are, in the program or in the solver's output.
#![tactic(auto)]

ghost use Rattle.std.specs.Prelude.{◌≡◌, length};
ghost use Rattle.texts.specs.Places.{span_from};
ghost use Rattle.names.specs.Texts.{bytes_at};
ghost use Rattle.names.specs.Table.{most_names, few_names, Table, names_of, bytes_of, slot_of};
ghost use Rattle.names.specs.Numbering.{Empty, Finds, Interns};

use text::bytes_at;
use texts::parts::same_bytes;
use texts::place::span_from;
use texts::sizes::MOST_TEXT;

pub mod bytewise;
mod table;
pub mod text;

// As many names as the two texts have bytes: each name that is put in has one of its own.
pub const MOST_NAMES: usize = 2 * MOST_TEXT;

// The numbers that a caller lends for a table.
pub const TABLE: usize = table::FIRST_ROW + MOST_NAMES * table::ROW;

// The most bytes of a small text, and the numbers of a table for two of them.
pub const SMALL_TEXT: usize = 4096;

pub const SMALL_TABLE: usize = table::FIRST_ROW + 2 * SMALL_TEXT * table::ROW;

// A table with no names, for any two texts within their size.
pub fn empty() -> [u32; TABLE]
    ensures { Empty most_names result }
{
    [0; TABLE]
}

// .. and for two small ones: to clear the other table costs more than to read them.
pub fn empty_small() -> [u32; SMALL_TABLE]
    ensures { Empty few_names result }
{
    [0; SMALL_TABLE]
}

// The number of a name: the names of its slot are looked at, the last first.
fn seek<'a>(
    program: &'a [u8],
    output: &'a [u8],
    table: &[u32],
    name: &[u8],
    slot: usize,
) -> Option<usize>
    requires { Table program.now output.now table.now × (slot ≡ slot_of name.now) }
    ensures { Finds (names_of program.now output.now table.now) name.now result }
{
    let mut link = table::head(table, slot);
    while 0 < link {
        let number = link - 1;
        if same_bytes(bytes_at(program, output, table::span(table, number)), name) {
            return Some(number);
        }
        link = table::link(table, number);
    }
    None
}

// The number of a name, whose bytes start at `start`; it is put behind the others where it is new. An empty one has none, and a full table
// takes no new one.
pub fn intern<'a>(
    program: &'a [u8],
    output: &'a [u8],
    table: &mut [u32],
    name: &'a [u8],
    start: usize,
) -> Option<usize>
    requires { Table program.now output.now table.old × (name.now ≡ bytes_at program.now output.now (span_from start (length name.now))) }
    ensures { Interns program.now output.now table.old name.now table.new result }
{
    if name.len() == 0 {
        return None;
    }
    let slot = table::slot_of(name);
    if let Some(number) = seek(program, output, &*table, name, slot) {
        return Some(number);
    }
    let number = table::count(&*table);
    if number == table::capacity(&*table) {
        return None;
    }
    table::add(table, slot, span_from(start, name.len()));
    Some(number)
}

// The bytes of the name with a number; none for a number that no name has.
pub fn bytes_of<'a>(program: &'a [u8], output: &'a [u8], table: &[u32], number: usize) -> &'a [u8]
    requires { Table program.now output.now table.now }
    ensures { result.now ≡ bytes_of program.now output.now table.now number }
{
    if table::count(table) <= number {
        return bytes_at(program, output, span_from(0, 0));
    }
    bytes_at(program, output, table::span(table, number))
}
