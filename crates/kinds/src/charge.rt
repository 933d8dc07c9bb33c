// Charges: entries of whole numbers of either sign.
ghost use Rattle.std.specs.Prelude.{pos, refl};
ghost use Rattle.kinds.specs.Limits.{charge_limit, charge_edge_limit, charge_none};
ghost use Rattle.kinds.specs.Charge as charge;
ghost use Rattle.kinds.specs.declared.kind.Kind.TheVariants as kind;

use crate::amount::Amount;
use crate::kind::Kind;
use crate::number::Number;

pub type Charge = Amount<i64>;

impl Charge {
    // the largest magnitude that an entry holds
    pub const LIMIT: i64 = 1_000_000_000;

    // the largest magnitude that an edge may have
    pub const EDGE_LIMIT: i64 = 1_000_000;
}

impl Number for i64 {
    ghost numbers = { charge.integers };

    ghost KIND = { kind.Charge };

    ghost ZERO = { pos 0 };

    ghost LIMIT = { charge_limit };

    ghost EDGE_LIMIT = { charge_edge_limit };

    ghost NONE = { charge_none };

    ghost laws = { charge.laws };

    ghost limits = { charge.limits };

    ghost order = { λ a b. refl };

    const KIND: Kind = Kind::Charge;

    const ZERO: i64 = 0;

    const LIMIT: i64 = Charge::LIMIT;

    const EDGE_LIMIT: i64 = Charge::EDGE_LIMIT;

    const NONE: i64 = Self::LIMIT + 1;

    fn whole(self) -> i128 {
        i128::from(self)
    }

    // The sum of two numbers within the limit can't overflow, so it is not asked whether it did.
    fn try_add(self, other: i64) -> Option<i64> {
        let held = -Charge::LIMIT..=Charge::LIMIT;
        if held.contains(&self) && held.contains(&other) {
            Some(self + other)
        } else {
            self.checked_add(other)
        }
    }
}
