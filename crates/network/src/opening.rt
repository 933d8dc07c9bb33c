ghost use Rattle.std.specs.Prelude.{◌≡◌, ◌*◌, ◌≤◌, length, map};
ghost use Rattle.std.specs.List.{range_with_len};
ghost use Rattle.closure.specs.Limits.{max_nodes};
ghost use Rattle.network.specs.Faults.{needed as cells_needed};
ghost use Rattle.network.specs.Layout.{identity_cell, opened};

use crate::cells::clear;
use crate::checks::needed;
use semiring::Semiring;

// Writes unit onto the diagonal of a table of n rows, and none elsewhere. Its length is n², so n comes with it.
fn write_identity<S: Semiring>(table: &mut [S::Cell], n: usize)
    requires { length table.old ≡ n * n }
    ensures { table.new ≡ map (identity_cell S.Semiring.entries n) (range_with_len 0 (n * n)) }
{
    for (p, cell) in table.iter_mut().enumerate() {
        *cell = S::write(if p / n == p % n { S::unit() } else { S::none() });
    }
}

// The cells of n nodes and no edges.
pub(crate) fn clear_network<S: Semiring>(cells: &mut [S::Cell], n: usize)
    requires count { n ≤ max_nodes }
    requires room { cells_needed n ≤ length cells.old }
    ensures { cells.new ≡ opened S.Semiring.entries n cells.old }
{
    clear::<S>(&mut cells[..needed(n)]);
    write_identity::<S>(&mut cells[n * n..n * n + n * n], n);
}
