// The calls that make a network, change it and read it.
ghost use Rattle.std.specs.Prelude.{◌≡◌, ◌≤◌, length, IfOk, None};
ghost use Rattle.closure.specs.Outcomes.{map_ok, outcome};
ghost use Rattle.network.specs.Calls.{after_insert, after_open, closure_answer, edge_answer, insert_refusal, open_refusal, read_refusal};
ghost use Rattle.network.specs.Faults.{answer, needed};
ghost use Rattle.network.specs.Guarantee.{BestOverWalks, CarriedOn, CycleAnswerExact, EdgeAccepted};
ghost use Rattle.network.specs.Meaning.{Inserted, Opened};
ghost use Rattle.network.specs.State.{state};
ghost use Rattle.network.specs.declared.call.Call.TheVariants.{Insert, Open};

use crate::Network;
use crate::checks::check_size;
use crate::fault::NetworkFault;
use crate::insertion::insert_edge;
use crate::opening::clear_network;
use crate::pair::Pair;
use closure::CheckFault;
use semiring::Semiring;

// `cells_lent` stands at each call that changes a network: it is of two moments of a borrow, and an invariant of one.
impl<S: Semiring> Network<'_, S> {
    // Checks 1 to 3 of the network and of two nodes. A caller has two numbers, and from here on they are a `Pair`.
    fn check_pair(&self, i: usize, j: usize) -> Result<Pair, NetworkFault<S::Fault>>
        ensures answer { map_ok (λ _. tt {0}) (answer result) ≡ outcome (read_refusal S.Semiring.entries i j (state self.now)) tt }
        ensures pair { IfOk result (λ p. (p.n ≡ self.now.n) × (p.i ≡ i) × (p.j ≡ j)) }
        ensures room { IfOk result (λ p. needed p.n ≤ length self.now.cells.now) }
    {
        let n = self.n;
        check_size(n, self.cells.len())?;
        if i >= n || j >= n {
            return Err(CheckFault::NotANode.into());
        }
        Ok(Pair { n, i, j })
    }

    // Makes it a network of n nodes and no edges.
    pub fn open(&mut self, n: usize) -> Result<(), NetworkFault<S::Fault>>
        ensures answered { answer result ≡ outcome (open_refusal S.Semiring.entries n (state self.old)) tt }
        ensures state_after { state self.new ≡ after_open S.Semiring.entries n (state self.old) }
        ensures accepted_opens { open_refusal S.Semiring.entries n (state self.old) ≡ None → Opened S.Semiring.entries n (state self.old) (state self.new) }
        ensures history_carried_on { CarriedOn S.Semiring.entries (Open n) (state self.old) (state self.new) }
        ensures cells_lent { self.new.cells.ghost_name ≡ self.old.cells.ghost_name }
    {
        check_size(n, self.cells.len())?;
        clear_network::<S>(self.cells, n);
        self.n = n;
        Ok(())
    }

    // The edge from i to j.
    pub fn edge(&self, i: usize, j: usize) -> Result<S::Entry, NetworkFault<S::Fault>>
        ensures edge_or_refusal { answer result ≡ edge_answer S.Semiring.entries i j (state self.now) }
        ensures edge_accepted { EdgeAccepted S.Semiring.entries i j (state self.now) result }
    {
        let pair = self.check_pair(i, j)?;
        Ok(S::read(self.cells[pair.index()]))
    }

    // The closure entry from i to j. As `edge`, a table further on: two lines, plainer than one method with an offset.
    pub fn closure(&self, i: usize, j: usize) -> Result<S::Entry, NetworkFault<S::Fault>>
        ensures closure_or_refusal { answer result ≡ closure_answer S.Semiring.entries i j (state self.now) }
        ensures best_over_walks { BestOverWalks S.Semiring.entries i j (state self.now) result }
    {
        let pair = self.check_pair(i, j)?;
        Ok(S::read(self.cells[pair.n * pair.n + pair.index()]))
    }

    // Sums an edge from i to j onto the edges, and what it adds onto the closure.
    pub fn insert(
        &mut self,
        i: usize,
        j: usize,
        edge: S::Entry,
    ) -> Result<(), NetworkFault<S::Fault>>
        ensures answered { answer result ≡ outcome (insert_refusal S.Semiring.entries i j edge (state self.old)) tt }
        ensures state_after { state self.new ≡ after_insert S.Semiring.entries i j edge (state self.old) }
        ensures accepted_inserts { insert_refusal S.Semiring.entries i j edge (state self.old) ≡ None → Inserted S.Semiring.entries i j edge (state self.old) (state self.new) }
        ensures history_carried_on { CarriedOn S.Semiring.entries (Insert i j edge) (state self.old) (state self.new) }
        ensures cycle_refused_exactly { CycleAnswerExact S.Semiring.entries i j edge (state self.old) result }
        ensures cells_lent { self.new.cells.ghost_name ≡ self.old.cells.ghost_name }
    {
        let pair = self.check_pair(i, j)?;
        if !S::is_edge(edge) {
            return Err(CheckFault::NotAnEdge(pair.place()).into());
        }
        insert_edge::<S>(self.cells, pair, edge)?;
        Ok(())
    }
}
