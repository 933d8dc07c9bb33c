// One call of a network's history, by its name.
ghost use Rattle.std.specs.Prelude.{◌≡◌};
ghost use Rattle.closure.specs.Theory.{Theory};
ghost use Rattle.network.specs.Faults.{answer};
ghost use Rattle.network.specs.Guarantee.{CarriedOn, EveryHistory};
ghost use Rattle.network.specs.History.{after, reply};
ghost use Rattle.network.specs.State.{state};

use crate::Network;
use crate::call::Call;
use crate::fault::NetworkFault;
use semiring::Semiring;

impl<S: Semiring> Network<'_, S> {
    // Makes one call, and answers with the entry that it read, if it reads one.
    // A history is any number of calls, one after the other, on a wrapped slice.
    pub fn perform(
        &mut self,
        call: Call<S::Entry>,
    ) -> Result<Option<S::Entry>, NetworkFault<S::Fault>>
        ensures answered { answer result ≡ reply S.Semiring.entries call (state self.old) }
        ensures state_after { state self.new ≡ after S.Semiring.entries call (state self.old) }
        ensures history_carried_on { CarriedOn S.Semiring.entries call (state self.old) (state self.new) }
        ensures every_history_guaranteed { EveryHistory S.Semiring.entries }
        ensures theory_of_closures { Theory S.Semiring.values }
        ensures cells_lent { self.new.cells.ghost_name ≡ self.old.cells.ghost_name }
    {
        // The one switch on a call, which is data: see `Call`.
        match call {
            Call::Open(n) => self.open(n).map(|()| None),
            Call::Insert(i, j, edge) => self.insert(i, j, edge).map(|()| None),
            Call::Edge(i, j) => self.edge(i, j).map(Some),
            Call::Closure(i, j) => self.closure(i, j).map(Some),
        }
    }
}
