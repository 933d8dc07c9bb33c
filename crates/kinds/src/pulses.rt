// Pulses: entries of natural numbers.
ghost use Rattle.kinds.specs.Limits.{pulses_limit, pulses_edge_limit, pulses_none};
ghost use Rattle.kinds.specs.Pulses as pulses;
ghost use Rattle.kinds.specs.declared.kind.Kind.TheVariants as kind;

use crate::amount::Amount;
use crate::kind::Kind;
use crate::number::Number;
use semiring::Dijkstra;

pub type Pulses = Amount<u64>;

impl Pulses {
    // the largest number that an entry holds
    pub const LIMIT: u64 = 1_000_000_000;

    // the largest number that an edge may have
    pub const EDGE_LIMIT: u64 = 1_000_000;
}

impl Number for u64 {
    ghost numbers = { pulses.naturals };

    ghost KIND = { kind.Pulses };

    ghost ZERO = { 0 };

    ghost LIMIT = { pulses_limit };

    ghost EDGE_LIMIT = { pulses_edge_limit };

    ghost NONE = { pulses_none };

    ghost laws = { pulses.laws };

    ghost limits = { pulses.limits };

    ghost order = { pulses.order };

    const KIND: Kind = Kind::Pulses;

    const ZERO: u64 = 0;

    const LIMIT: u64 = Pulses::LIMIT;

    const EDGE_LIMIT: u64 = Pulses::EDGE_LIMIT;

    const NONE: u64 = Self::LIMIT + 1;

    fn whole(self) -> i128 {
        i128::from(self)
    }

    fn try_add(self, other: u64) -> Option<u64> {
        self.checked_add(other)
    }
}

impl Dijkstra for Pulses {
    fn dijkstra() {}
}
