ghost use Rattle.std.specs.Prelude.{◌≡◌, ◌≤◌, OnOk};
ghost use Rattle.closure.specs.Outcomes.{outcome};
ghost use Rattle.closure.specs.Limits.{max_nodes};
ghost use Rattle.network.specs.Faults.{answer, needed as cells_needed, size_refusal};

use crate::fault::NetworkFault;
use closure::{CheckFault, MAX_NODES};

// How many cells n nodes take: edges, closure and scratch. The bound on n is a clause, since n is a caller's number still.
pub(crate) fn needed(n: usize) -> usize
    requires { n ≤ max_nodes }
    ensures { result ≡ cells_needed n }
{
    n * n + n * n + (n + n)
}

// Checks 1 and 2: the node count, and the slice's length.
pub(crate) fn check_size<F>(n: usize, len: usize) -> Result<(), NetworkFault<F>>
    ensures answer { answer result ≡ outcome (size_refusal n len) tt }
    ensures passed { OnOk result ((n ≤ max_nodes) × (cells_needed n ≤ len)) }
{
    if !(1..=MAX_NODES).contains(&n) {
        return Err(CheckFault::NodeCount.into());
    }
    if len < needed(n) {
        return Err(CheckFault::TooShort.into());
    }
    Ok(())
}
