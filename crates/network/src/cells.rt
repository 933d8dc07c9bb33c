ghost use Rattle.std.specs.Prelude.{◌≡◌, ◌+◌, ◌*◌, ◌<◌, length, map, slice_index_or};
ghost use Rattle.std.specs.List.{range_with_len};
ghost use Rattle.closure.specs.Cells.{blank};

use semiring::Semiring;

// Writes none into each cell.
pub(crate) fn clear<S: Semiring>(cells: &mut [S::Cell])
    ensures { cells.new ≡ map (λ _. blank S.Semiring.entries) (range_with_len 0 (length cells.old)) }
{
    cells.fill_with(|| S::write(S::none()));
}

// Writes column i of a table, whose rows are as long as the column.
pub(crate) fn copy_column<S: Semiring>(column: &mut [S::Cell], table: &[S::Cell], i: usize)
    requires column { i < length column.old }
    requires square { length table.now ≡ length column.old * length column.old }
    ensures { column.new ≡ map (λ x. slice_index_or table.now (x * length column.old + i) (blank S.Semiring.entries)) (range_with_len 0 (length column.old)) }
{
    let n = column.len();
    // By place, not by `zip`, as in `relax`.
    for (x, cell) in column.iter_mut().enumerate() {
        *cell = table[x * n + i];
    }
}
