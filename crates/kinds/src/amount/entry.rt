// An entry from a number, back to a number, and as text.
ghost use Rattle.std.specs.Prelude.{◌≡◌, Some};
ghost use Rattle.std.specs.Fmt.{signed_decimal};
ghost use Rattle.kinds.specs.Amount.{known, text};
ghost use Rattle.kinds.specs.Entries.{value, made, checked};

use crate::amount::Amount;
use crate::number::Number;
use std::fmt;

impl<N: Number> Amount<N> {
    // The entry of a number whose magnitude is at most the limit.
    pub fn new(number: N) -> Option<Amount<N>>
        ensures entry_up_to_the_limit { result ≡ checked number }
    {
        if number.is_within(N::LIMIT) {
            Some(Self::capped(number))
        } else {
            None
        }
    }

    // The entry of a number: past the limit on either side it is none.
    pub(super) fn capped(number: N) -> Amount<N>
        ensures { result ≡ made number }
    {
        Amount {
            number: if number.is_within(N::LIMIT) {
                number
            } else {
                N::NONE
            },
        }
    }

    // The number of an entry that is not none.
    pub fn number(self) -> Option<N>
        ensures number_unless_none { result ≡ known (value self) }
    {
        if self.number > N::LIMIT {
            None
        } else {
            Some(self.number)
        }
    }
}

impl<N: Number> fmt::Display for Amount<N> {
    ghost output = { λ e. Some (text (λ m. signed_decimal (N.numbers.whole m)) (value e)) };

    fn fmt<W: fmt::Write>(&self, f: &mut fmt::Formatter<W>) -> fmt::Result {
        match self.number() {
            Some(number) => number.whole().fmt(f),
            None => f.pad("-"),
        }
    }
}
