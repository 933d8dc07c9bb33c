// A network of three cab stands, from nothing to its finished closure, and what it refuses.
#![tactic(auto)]

use kinds::Pulses;
use network::{Call, Network};
use std::io;
use transcript::transcribe;

// Three nodes from nothing to the finished closure, and then what the network refuses.
fn three_nodes(rt: &impl Print) -> io::Result<()> {
    let (first, second, direct) = (
        Pulses::new(400).unwrap(),
        Pulses::new(300).unwrap(),
        Pulses::new(900).unwrap(),
    );
    let past_the_edge_limit = Pulses::new(1_000_001).unwrap();
    let mut cells = [0; 24];
    let mut network = Network::<Pulses>::wrap(&mut cells);
    println!(rt; "24 cells: a network of no nodes")?;
    let task = [
        Call::Open(3),
        Call::Insert(0, 1, first),
        Call::Insert(1, 2, second),
        Call::Insert(0, 2, direct),
        Call::Closure(0, 2),
        Call::Edge(0, 2),
    ];
    transcribe(rt, &mut network, &task)?;
    let refused = [
        Call::Insert(0, 1, past_the_edge_limit),
        Call::Insert(0, 3, first),
        Call::Closure(3, 0),
        Call::Open(0),
        Call::Open(65),
    ];
    transcribe(rt, &mut network, &refused)
}

// A slice that is one cell too short for three nodes.
fn one_cell_short(rt: &impl Print) -> io::Result<()> {
    let mut cells = [0; 23];
    let mut network = Network::<Pulses>::wrap(&mut cells);
    println!(rt; "23 cells: a network of no nodes")?;
    transcribe(rt, &mut network, &[Call::Open(3), Call::Closure(0, 0)])
}

fn main(rt: HostRuntime) -> io::Result<()> {
    three_nodes(&rt)?;
    one_cell_short(&rt)
}

#[cfg(test)]
mod tests {
    use super::*;
    use network::Answer;
    use std::test::Fail;

    #[test]
    fn best_of_two_ways(rt: HostRuntime) -> Result<(), Fail> {
        let mut cells = [0; 24];
        let mut network = Network::<Pulses>::wrap(&mut cells);
        network.open(3)?;
        network.insert(0, 2, Pulses::new(900).unwrap())?;
        network.insert(1, 2, Pulses::new(300).unwrap())?;
        network.insert(0, 1, Pulses::new(400).unwrap())?;
        assert_eq!(rt; network.closure(0, 2)?.number(), Some(700));
        assert_eq!(rt; network.edge(0, 2)?.number(), Some(900));
        assert_eq!(rt; network.closure(2, 0)?.number(), None);
        Ok(())
    }

    #[test]
    fn one_node_reaches_itself(rt: HostRuntime) -> Result<(), Fail> {
        let mut cells = [0; 4];
        let mut network = Network::<Pulses>::wrap(&mut cells);
        network.open(1)?;
        assert_eq!(rt; network.closure(0, 0)?.number(), Some(0));
        Ok(())
    }

    #[test]
    fn node_counts_from_1_to_64(rt: HostRuntime) -> Result<(), Fail> {
        let mut cells = [0; 8320];
        let mut network = Network::<Pulses>::wrap(&mut cells);
        assert_eq!(rt; network.open(0).map_err(|fault| fault.number()), Err(1));
        assert_eq!(rt; network.open(65).map_err(|fault| fault.number()), Err(1));
        network.open(64)?;
        assert_eq!(rt; network.closure(63, 63)?.number(), Some(0));
        Ok(())
    }

    #[test]
    fn cells_behind_the_network_are_kept(rt: HostRuntime) -> Result<(), Fail> {
        let mut cells = [7; 13];
        let mut network = Network::<Pulses>::wrap(&mut cells);
        network.open(2)?;
        network.insert(0, 1, Pulses::new(5).unwrap())?;
        assert_eq!(rt;
            network
                .insert(1, 0, Pulses::new(1_000_001).unwrap())
                .map_err(|fault| fault.number()),
            Err(4)
        );
        drop(network);
        assert_eq!(rt; cells[1], 5);
        assert_eq!(rt; cells[5], 5);
        assert_eq!(rt; cells[12], 7);
        Ok(())
    }

    #[test]
    fn answers_take_no_width_and_no_sign(rt: HostRuntime) -> Result<(), Fail> {
        let mut cells = [0; 12];
        let mut network = Network::<Pulses>::wrap(&mut cells);
        let accepted = Answer(network.perform(Call::Open(2)));
        network.insert(0, 1, Pulses::new(5).unwrap())?;
        let read = Answer(network.perform(Call::Edge(0, 1)));
        let text = format!(in rt.alloc(); "{accepted:>12} {read:>12} {read:+}")?;
        assert_eq!(rt; text.as_str(), "accepted 5 5");
        Ok(())
    }

    #[test]
    fn debug_of_a_failed_check_is_the_check(rt: HostRuntime) -> Result<(), Fail> {
        let mut cells = [0; 12];
        let mut network = Network::<Pulses>::wrap(&mut cells);
        let opened = network.open(0);
        let read = network.edge(0, 0);
        let text = format!(in rt.alloc(); "{opened:?} {read:?}")?;
        assert_eq!(rt; text.as_str(), "Err(NodeCount) Err(NodeCount)");
        Ok(())
    }
}
