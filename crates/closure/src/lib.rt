#![tactic(auto)]

mod fault;

pub use fault::{CheckFault, Place, TableFault};

// The most nodes that a table may have.
pub const MAX_NODES: usize = 64;
