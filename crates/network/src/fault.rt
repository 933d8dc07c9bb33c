ghost use Rattle.std.specs.Prelude.{◌≡◌, Some};
ghost use Rattle.closure.specs.Refusals.{refusal_text};
ghost use Rattle.network.specs.Faults.{described};
ghost use Rattle.network.specs.declared.fault.NetworkFault.TheVariants.{Check, Table};

use closure::{CheckFault, Place, TableFault};
use std::fmt;

// Why a call on a network was refused. A refused step on its tables is held whole.
#[derive(Drop)]
pub enum NetworkFault<F> {
    Check(CheckFault),
    Table(TableFault<F>),
}

impl<F> NetworkFault<F> {
    // The number by which the rules count the refusal and print it.
    pub fn number(&self) -> u8
        ensures number_described { result ≡ (described self.now).number }
    {
        match self {
            NetworkFault::Check(check) => check.number(),
            NetworkFault::Table(fault) => fault.number(),
        }
    }

    // The pair of nodes that the refusal names, (0,0) where none is to blame.
    pub fn place(&self) -> Place
        ensures place_described { result ≡ (described self.now).place }
    {
        match self {
            NetworkFault::Check(check) => check.place(),
            NetworkFault::Table(fault) => fault.place(),
        }
    }
}

impl<F> From<CheckFault> for NetworkFault<F> {
    ghost from_gives = { λ check fault. fault ≡ Check check };

    fn from(check: CheckFault) -> NetworkFault<F> {
        NetworkFault::Check(check)
    }
}

impl<F> From<TableFault<F>> for NetworkFault<F> {
    ghost from_gives = { λ step fault. fault ≡ Table step };

    fn from(step: TableFault<F>) -> NetworkFault<F> {
        NetworkFault::Table(step)
    }
}

// Written out, as that of a table's fault.
impl<F: fmt::Debug> fmt::Debug for NetworkFault<F> {
    fn fmt<W: fmt::Write>(&self, f: &mut fmt::Formatter<W>) -> fmt::Result {
        match self {
            NetworkFault::Check(check) => fmt::Debug::fmt(check, f),
            NetworkFault::Table(fault) => f.debug_tuple("Table").field(fault).finish(),
        }
    }
}

impl<F> fmt::Display for NetworkFault<F> {
    ghost output = { λ t. Some (refusal_text (described t)) };

    fn fmt<W: fmt::Write>(&self, f: &mut fmt::Formatter<W>) -> fmt::Result {
        match self {
            NetworkFault::Check(check) => check.fmt(f),
            NetworkFault::Table(fault) => fault.fmt(f),
        }
    }
}
