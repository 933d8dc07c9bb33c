ghost use Rattle.std.specs.Prelude.{◌≡◌, ◌*◌, ◌≤◌, length, map};
ghost use Rattle.std.specs.List.{range_with_len};
ghost use Rattle.closure.specs.Cells.{at};
ghost use Rattle.closure.specs.Outcomes.{outcome, map_err, unless};
ghost use Rattle.closure.specs.Insertion.{factor as factor_of, insertion_refusal};
ghost use Rattle.closure.specs.Passes.{row_fault, raised_cell, pass_fault, passed_cell};
ghost use Rattle.closure.specs.Refusals.{described};
ghost use Rattle.network.specs.Faults.{needed};
ghost use Rattle.network.specs.Layout.{closure_of, scratch_cleared, closure_passed, inserted_cells};

use crate::cells::{clear, copy_column};
use crate::pair::Pair;
use closure::{Place, TableFault};
use semiring::Semiring;

// Whether t times each entry of a row is held, as it always is where t is none.
fn try_row<S: Semiring>(t: S::Entry, row: &[S::Cell]) -> Result<(), S::Fault>
    ensures { result ≡ outcome (row_fault S.Semiring.entries t (at S.Semiring.entries row.now) (length row.now)) tt }
{
    if S::same(t, S::none()) {
        return Ok(());
    }
    for cell in row {
        S::product(t, S::read(*cell))?;
    }
    Ok(())
}

// Whether every product of a pass over the closure is held, by its column i, m and its row j.
fn try_pass<S: Semiring>(cells: &[S::Cell], pair: Pair, m: S::Entry) -> Result<(), S::Fault>
    requires { needed pair.n ≤ length cells.now }
    ensures { result ≡ outcome (pass_fault S.Semiring.entries (λ x. closure_of S.Semiring.entries pair.n cells.now x pair.i) m (closure_of S.Semiring.entries pair.n cells.now pair.j) pair.n) tt }
{
    let n = pair.n;
    let closure = &cells[n * n..n * n + n * n];
    let row = &closure[pair.j * n..pair.j * n + n];
    for line in closure.chunks_exact(n) {
        let t = S::product(S::read(line[pair.i]), m)?;
        try_row::<S>(t, row)?;
    }
    Ok(())
}

// Sums t times the entries of a row onto those of a line: nothing, where t is none.
// A refused product would add nothing either, but `try_row` has refused those before.
fn relax<S: Semiring>(line: &mut [S::Cell], t: S::Entry, row: &[S::Cell])
    requires { length line.old ≡ length row.now }
    ensures { line.new ≡ map (raised_cell S.Semiring.entries t (at S.Semiring.entries row.now) line.old) (range_with_len 0 (length row.now)) }
{
    if S::same(t, S::none()) {
        return;
    }
    // By place, not by `zip`: of cells written through a zipped `iter_mut` a proof knows the length alone.
    for (y, cell) in line.iter_mut().enumerate() {
        let more = S::product(t, S::read(row[y])).unwrap_or(S::none());
        *cell = S::write(S::sum(S::read(*cell), more));
    }
}

// One pass over a table, by a column and then a row.
fn pass<S: Semiring>(table: &mut [S::Cell], column: &[S::Cell], m: S::Entry, row: &[S::Cell])
    requires lines { length column.now ≡ length row.now }
    requires square { length table.old ≡ length row.now * length row.now }
    ensures { table.new ≡ map (passed_cell S.Semiring.entries (at S.Semiring.entries column.now) m (at S.Semiring.entries row.now) (length row.now) 0 table.old) (range_with_len 0 (length row.now * length row.now)) }
{
    let n = row.len();
    // By place, not by `chunks_exact_mut`: of cells written through its lines a proof knows the length alone.
    for (x, cell) in column.iter().enumerate() {
        let t = S::product(S::read(*cell), m).unwrap_or(S::none());
        relax::<S>(&mut table[x * n..x * n + n], t, row);
    }
}

// The edge after any number of laps by it, where `back` leads from its end to its start.
fn factor<S: Semiring>(
    place: Place,
    edge: S::Entry,
    back: S::Entry,
) -> Result<S::Entry, TableFault<S::Fault>>
    ensures { map_err described result ≡ factor_of S.Semiring.entries place.row place.column edge back }
{
    let lap = S::product(edge, back).map_err(|w| TableFault::TooLarge(place, w))?;
    let laps = S::star(lap).map_err(|w| TableFault::Cycle(place, w))?;
    S::product(laps, edge).map_err(|w| TableFault::TooLarge(place, w))
}

// Sums onto the closure what an edge adds to it, m being its factor.
fn spread<S: Semiring>(cells: &mut [S::Cell], pair: Pair, m: S::Entry)
    requires { needed pair.n ≤ length cells.old }
    ensures { cells.new ≡ scratch_cleared S.Semiring.entries pair.n (closure_passed S.Semiring.entries pair.n pair.i pair.j m cells.old) }
{
    let n = pair.n;
    let (_edges, rest) = cells.split_at_mut(n * n);
    let (closure, rest) = rest.split_at_mut(n * n);
    let scratch = &mut rest[..n + n];
    let (column, row) = scratch.split_at_mut(n);
    copy_column::<S>(column, closure, pair.i);
    row.copy_from_slice(&closure[pair.j * n..pair.j * n + n]);
    pass::<S>(closure, column, m, row);
    clear::<S>(scratch);
}

// Inserts an edge into a network's cells, or refuses and leaves them as they were.
// Room for the pair's nodes is required here and above: a type of cells and pair would be made anew for every call.
pub(crate) fn insert_edge<S: Semiring>(
    cells: &mut [S::Cell],
    pair: Pair,
    edge: S::Entry,
) -> Result<(), TableFault<S::Fault>>
    requires { needed pair.n ≤ length cells.old }
    ensures answer { map_err described result ≡ outcome (insertion_refusal S.Semiring.entries pair.i pair.j (closure_of S.Semiring.entries pair.n cells.old) pair.n edge) tt }
    ensures cells_after { cells.new ≡ unless (insertion_refusal S.Semiring.entries pair.i pair.j (closure_of S.Semiring.entries pair.n cells.old) pair.n edge) (inserted_cells S.Semiring.entries pair.n pair.i pair.j edge cells.old) cells.old }
{
    let n = pair.n;
    let back = S::read(cells[n * n + pair.reversed().index()]);
    let m = factor::<S>(pair.place(), edge, back)?;
    try_pass::<S>(cells, pair, m).map_err(|w| TableFault::TooLarge(pair.place(), w))?;
    spread::<S>(cells, pair, m);
    let at = pair.index();
    cells[at] = S::write(S::sum(S::read(cells[at]), edge));
    Ok(())
}
