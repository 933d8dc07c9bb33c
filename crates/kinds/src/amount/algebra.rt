// Amounts as a semiring: the sum is the smaller number, the product adds.
ghost use Rattle.kinds.specs.Numbers.{values};
ghost use Rattle.kinds.specs.Entries.{entries};
ghost use Rattle.kinds.specs.AmountLaws;
ghost use Rattle.kinds.specs.Exact;

use crate::amount::Amount;
use crate::kind::Kind;
use crate::number::Number;
use semiring::{Selective, Semiring};

impl<N: Number> Semiring for Amount<N> {
    type Entry = Amount<N>;

    type Cell = N;

    type Fault = Kind;

    ghost values = { values N.numbers N.ZERO };

    ghost entries = { entries };

    ghost laws = { AmountLaws.laws N.Number.laws };

    ghost exact = { Exact.exact _ _ _ _ N.Number.laws N.Number.limits };

    fn none() -> Amount<N> {
        Amount::capped(N::NONE)
    }

    fn unit() -> Amount<N> {
        Amount::capped(N::ZERO)
    }

    // None has the largest number, so it needs no test of its own.
    #[tactic(auto, using(crate::specs::Exact::min_made))]
    fn sum(a: Amount<N>, b: Amount<N>) -> Amount<N> {
        a.min(b)
    }

    fn product(a: Amount<N>, b: Amount<N>) -> Result<Amount<N>, Kind> {
        match (a.number(), b.number()) {
            (Some(a), Some(b)) => a.try_add(b).and_then(Amount::new).ok_or(N::KIND),
            _ => Ok(Self::none()),
        }
    }

    // Below zero each further round makes the number smaller, without end.
    fn star(a: Amount<N>) -> Result<Amount<N>, Kind> {
        if a.number < N::ZERO {
            Err(N::KIND)
        } else {
            Ok(Self::unit())
        }
    }

    fn same(a: Amount<N>, b: Amount<N>) -> bool {
        a == b
    }

    fn is_edge(a: Amount<N>) -> bool {
        match a.number() {
            Some(number) => number.is_within(N::EDGE_LIMIT),
            None => true,
        }
    }

    fn read(c: N) -> Amount<N> {
        Amount::capped(c)
    }

    fn write(a: Amount<N>) -> N {
        a.number
    }
}

impl<N: Number> Selective for Amount<N> {
    fn selective() {}
}
