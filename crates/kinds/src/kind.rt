ghost use Rattle.std.specs.Prelude.{◌≡◌};
ghost use Rattle.kinds.specs.Kinds.{kind_number};

// Which kind refused a product or a star.
#[derive(Clone, Copy, PartialEq, Eq, Debug)]
pub enum Kind {
    Pulses = 1,
    Charge = 2,
}

impl Kind {
    // The kind's number, as the rules count them.
    pub fn number(self) -> u8
        ensures number_of_kind { result ≡ kind_number self }
    {
        self as u8
    }
}
