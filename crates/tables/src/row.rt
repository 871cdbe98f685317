// Rows of numbers, stored in a lent table.
ghost use Rattle.std.specs.Prelude.{◌≡◌, ◌+◌, ◌≤◌, length};
ghost use Rattle.tables.specs.Stored.{with_row};

// The numbers of a row, stored from a place on.
pub fn put_row(table: &mut [u64], at: usize, row: &[u64])
    requires { at + length row.now ≤ length table.old }
    ensures { table.new ≡ with_row table.old at row.now }
{
    // Number by number, and not by `copy_from_slice`: what is stored is then a goal of its own, which a wrong number fails.
    for i in 0..row.len() {
        table[at + i] = row[i];
    }
}
