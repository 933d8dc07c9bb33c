// What the kinds differ by.
ghost use Rattle.std.specs.Prelude.{◌≡◌};
ghost use Rattle.std.specs.Ordering.{int_cmp};
ghost use Rattle.kinds.specs.Numbers.{Numbers, NumberLaws, LimitLaws, IsSum, up_to};
ghost use Rattle.kinds.specs.declared.kind.Kind.{Kind};

use crate::kind::Kind;

// A sort of number, with the limits of the kind whose entries hold it.
// `whole` and `try_add` stand in each impl, since what they call belongs to each type.
pub trait Number: Copy + Ord {
    ghost numbers: { Numbers Self };

    ghost KIND: { Kind };

    // the kind that refuses
    const KIND: Kind;

    ghost ZERO: { Self };

    const ZERO: Self;

    ghost LIMIT: { Self };

    // the largest magnitude that an entry holds
    const LIMIT: Self;

    ghost EDGE_LIMIT: { Self };

    // the largest magnitude that an edge may have
    const EDGE_LIMIT: Self;

    ghost NONE: { Self };

    // the number that stands for none
    const NONE: Self;

    // The whole number that it is: an i128 holds that of any u64 and any i64.
    fn whole(self) -> i128
        ensures { result ≡ numbers.whole self };

    // The sum of two numbers. Past the limit it may be None, as where the type does not hold it.
    fn try_add(self, other: Self) -> Option<Self>
        ensures { IsSum numbers LIMIT self other result };

    // Whether the magnitude of a number is at most that of a limit.
    // A range, where the limit is not below zero, as no kind's is: one comparison in the code that is made of it.
    final fn is_within(self, limit: Self) -> bool
        ensures { result ≡ up_to (numbers.whole limit) (numbers.whole self) }
    {
        let (number, limit) = (self.whole(), limit.whole());
        if limit < 0 {
            number.unsigned_abs() <= limit.unsigned_abs()
        } else {
            (-limit..=limit).contains(&number)
        }
    }

    ghost laws: { NumberLaws numbers ZERO };

    ghost limits: { LimitLaws numbers LIMIT NONE };

    // a comparison is that of the whole numbers
    ghost order: { (a b : Self) → Self.cmp a b ≡ int_cmp (numbers.whole a) (numbers.whole b) };
}
