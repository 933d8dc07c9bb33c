#![tactic(auto)]

ghost use Rattle.std.specs.Prelude.{◌≡◌};
ghost use Rattle.network.specs.History.{no_edges, Reached};
ghost use Rattle.network.specs.State.{state, state_with};

use semiring::Semiring;

mod call;
mod calls;
mod cells;
mod checks;
mod fault;
mod insertion;
mod opening;
mod pair;
mod perform;

pub use call::{Answer, Call};
pub use fault::NetworkFault;

// A network of n nodes over borrowed cells: its edges, their closure, and scratch.
// What lies behind these in the slice is never touched.
// One slice and a count, not three tables: the caller lends the memory, and no heap is used.
pub struct Network<'a, S: Semiring> {
    cells: &'a mut [S::Cell],
    n: usize,
}

impl<S: Semiring> Drop for Network<'_, S> {
    fn drop(self)
        ensures { self.exit.0.now ≡ self.entry.cells.now }
    {
        let Network { cells: _, n: _ } = self;
    }
}

impl<'a, S: Semiring> Network<'a, S> {
    // A network of no nodes, which `open` then makes.
    pub fn wrap(cells: &'a mut [S::Cell]) -> Network<'a, S>
        ensures no_nodes_cells_kept { state result ≡ state_with 0 cells.old }
        ensures history_begun { Reached S.Semiring.entries (state result) (no_edges S.Semiring.entries) }
        ensures cells_lent { result.cells.ghost_name ≡ cells.entry.ghost_name }
    {
        Network { cells, n: 0 }
    }

    pub fn node_count(&self) -> usize
        ensures count_of_nodes { result ≡ (state self.now).n }
    {
        self.n
    }
}
