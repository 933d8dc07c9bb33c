// A history made and printed: each call with its answer, and the closure after it.
#![tactic(auto)]

ghost use Rattle.std.specs.Prelude.{◌≡◌};
ghost use Rattle.network.specs.State.{state};
ghost use Rattle.transcript.specs.Transcript.{Performed};

use network::{Answer, Call, Network};
use semiring::Semiring;
use std::{fmt, io};

// The closure, a line for each node. No `Display` of a network: an entry is asked for by a call, which may refuse.
fn print_closure<S: Semiring>(rt: &impl Print, network: &Network<'_, S>) -> io::Result<()>
where
    S::Entry: fmt::Display,
{
    // By number: `closure` asks for nodes, and the number of a line's node is printed.
    for i in 0..network.node_count() {
        print!(rt; "    {i}:")?;
        for j in 0..network.node_count() {
            print!(rt; " {}", Answer(network.closure(i, j).map(Some)))?;
        }
        println!(rt)?;
    }
    Ok(())
}

// Makes the calls one after the other, and prints each with its answer and the closure after it.
// `cells_lent` is of two moments of a borrow, so no invariant has it.
pub fn transcribe<S: Semiring>(
    rt: &impl Print,
    network: &mut Network<'_, S>,
    calls: &[Call<S::Entry>],
) -> io::Result<()>
where
    S::Entry: fmt::Display,
    ensures performed { Performed S.Semiring.entries calls.now (state network.old) (state network.new) result }
    ensures cells_lent { network.new.cells.ghost_name ≡ network.old.cells.ghost_name }
{
    for call in calls {
        let answer = Answer(network.perform(*call));
        println!(rt; "{call}: {answer}")?;
        print_closure(rt, network)?;
    }
    Ok(())
}
