// A history of a network: calls made by name, one after the other, and a refusal for a cycle.
#![tactic(auto)]

use kinds::Charge;
use network::{Call, Network};
use std::io;
use transcript::transcribe;

// A rebate on the way back: a round trip may cost nothing, but no lap may pay.
fn rebate(rt: &impl Print) -> io::Result<()> {
    let (out, back, paying) = (
        Charge::new(500).unwrap(),
        Charge::new(-500).unwrap(),
        Charge::new(-501).unwrap(),
    );
    let mut cells = [0; 12];
    let mut network = Network::<Charge>::wrap(&mut cells);
    println!(rt; "12 cells: a network of no nodes")?;
    let calls = [
        Call::Open(2),
        Call::Insert(0, 1, out),
        Call::Insert(1, 0, paying),
        Call::Insert(1, 0, back),
        Call::Insert(1, 0, paying),
        Call::Edge(1, 0),
    ];
    transcribe(rt, &mut network, &calls)
}

fn main(rt: HostRuntime) -> io::Result<()> {
    rebate(&rt)
}

#[cfg(test)]
mod tests {
    use super::*;
    use std::test::Fail;

    #[test]
    fn paying_cycle_refused_and_forgotten(rt: HostRuntime) -> Result<(), Fail> {
        let mut cells = [0; 12];
        let mut network = Network::<Charge>::wrap(&mut cells);
        network.open(2)?;
        network.insert(0, 1, Charge::new(500).unwrap())?;
        assert_eq!(rt;
            network
                .insert(1, 0, Charge::new(-501).unwrap())
                .map_err(|fault| fault.number()),
            Err(6)
        );
        assert_eq!(rt; network.closure(1, 0)?.number(), None);
        network.insert(1, 0, Charge::new(-500).unwrap())?;
        assert_eq!(rt; network.closure(0, 0)?.number(), Some(0));
        Ok(())
    }

    #[test]
    fn debug_of_a_refused_step_names_its_layer(rt: HostRuntime) -> Result<(), Fail> {
        let mut cells = [0; 4];
        let mut network = Network::<Charge>::wrap(&mut cells);
        network.open(1)?;
        let lap = network.insert(0, 0, Charge::new(-1).unwrap());
        let text = format!(in rt.alloc(); "{lap:?}")?;
        assert_eq!(rt;
            text.as_str(),
            "Err(Table(Cycle(Place { row: 0, column: 0 }, Charge)))"
        );
        Ok(())
    }
}
