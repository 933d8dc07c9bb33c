ghost use Rattle.std.specs.Prelude.{◌≡◌, ◌+◌, ◌*◌, ◌<◌, ◌≤◌};
ghost use Rattle.closure.specs.Limits.{max_nodes};

use closure::Place;

// Two nodes of a network of n nodes.
#[derive(Clone, Copy)]
pub(crate) struct Pair {
    pub(crate) n: usize,
    pub(crate) i: usize,
    pub(crate) j: usize,
    ghost count: { n ≤ max_nodes },
    ghost from_node: { i < n },
    ghost to_node: { j < n },
}

impl Pair {
    // Where the entry from i to j lies in a table.
    pub(crate) fn index(self) -> usize
        ensures entry { result ≡ self.i * self.n + self.j }
        ensures within { result < self.n * self.n }
    {
        self.i * self.n + self.j
    }

    pub(crate) fn reversed(self) -> Pair
        ensures count { result.n ≡ self.n }
        ensures from { result.i ≡ self.j }
        ensures to { result.j ≡ self.i }
    {
        Pair {
            n: self.n,
            i: self.j,
            j: self.i,
        }
    }

    pub(crate) fn place(self) -> Place
        ensures row { result.row ≡ self.i }
        ensures column { result.column ≡ self.j }
    {
        Place {
            row: self.i,
            column: self.j,
        }
    }
}
