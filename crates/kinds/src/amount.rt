ghost use Rattle.std.specs.Prelude.{◌≡◌, ⊤, IsTrue};
ghost use Rattle.kinds.specs.Numbers.{bounded};

pub(crate) mod algebra;
pub(crate) mod entry;

use crate::kind::Kind;
use crate::number::Number;
use std::alloc::AllocError;
use std::fmt;

// None, or a number up to the limit of its kind. For none the number after the limit stands.
// Not an `Option`: an entry is the number of its cell, and none is the largest, so `==` and `min` are those of entries.
#[derive(Copy, PartialEq, Eq, PartialOrd, Ord)]
pub struct Amount<N: Number> {
    number: N,
    ghost bound: { IsTrue (bounded N.numbers N.LIMIT N.NONE number) },
}

// Written out: beside a ghost field `Clone` is not derived for a type with a parameter.
impl<N: Number> Clone for Amount<N> {
    ghost is_clone = { λ a b. b ≡ a };

    ghost is_infallible = { λ _. ⊤ };

    fn clone(&self) -> Result<Amount<N>, AllocError> {
        Ok(*self)
    }
}

// Written out: a derive would call both kinds `Amount`.
impl<N: Number + fmt::Debug> fmt::Debug for Amount<N> {
    fn fmt<W: fmt::Write>(&self, f: &mut fmt::Formatter<W>) -> fmt::Result {
        let name = match N::KIND {
            Kind::Pulses => "Pulses",
            Kind::Charge => "Charge",
        };
        f.debug_struct(name).field("number", &self.number).finish()
    }
}
