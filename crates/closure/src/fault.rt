ghost use Rattle.std.specs.Prelude.{◌≡◌, Some};
ghost use Rattle.closure.specs.Refusals.{check_number, check_place, check_text, described, place_text, refusal_text};

use std::fmt;

// An entry's place in a table, or a pair of nodes.
#[derive(Clone, Copy, PartialEq, Eq, Debug)]
pub struct Place {
    pub row: usize,
    pub column: usize,
}

impl Place {
    // Where no entry is to blame: the rules want a pair there too, so it is no `Option`.
    pub const NOWHERE: Place = Place { row: 0, column: 0 };
}

impl fmt::Display for Place {
    ghost output = { λ p. Some (place_text p) };

    fn fmt<W: fmt::Write>(&self, f: &mut fmt::Formatter<W>) -> fmt::Result {
        write!(f, "({},{})", self.row, self.column)
    }
}

// Which of the checks that a call puts first has failed.
#[derive(Clone, Copy, PartialEq, Eq, Debug)]
pub enum CheckFault {
    NodeCount,
    TooShort,
    NotANode,
    NotAnEdge(Place),
}

impl CheckFault {
    // The number by which the rules count the check and print it.
    pub fn number(self) -> u8
        ensures number_of_check { result ≡ check_number self }
    {
        match self {
            CheckFault::NodeCount => 1,
            CheckFault::TooShort => 2,
            CheckFault::NotANode => 3,
            CheckFault::NotAnEdge(_) => 4,
        }
    }

    // The place that the check names, (0,0) where none is to blame.
    pub fn place(self) -> Place
        ensures place_of_check { result ≡ check_place self }
    {
        match self {
            CheckFault::NotAnEdge(place) => place,
            _ => Place::NOWHERE,
        }
    }
}

// A failed check prints as the table's fault that holds it.
impl fmt::Display for CheckFault {
    ghost output = { λ c. Some (check_text c) };

    fn fmt<W: fmt::Write>(&self, f: &mut fmt::Formatter<W>) -> fmt::Result {
        TableFault::<()>::Check(*self).fmt(f)
    }
}

// Why work on a table was refused. F is the semiring's own word for it.
// It has the checks as well, for work on tables that no network has checked before.
#[derive(Drop)]
pub enum TableFault<F> {
    Check(CheckFault),
    TooLarge(Place, F),
    Cycle(Place, F),
}

impl<F> TableFault<F> {
    // The number by which the rules count the refusal and print it.
    pub fn number(&self) -> u8
        ensures number_described { result ≡ (described self.now).number }
    {
        match self {
            TableFault::Check(check) => check.number(),
            TableFault::TooLarge(_, _) => 5,
            TableFault::Cycle(_, _) => 6,
        }
    }

    // The place that the refusal names, (0,0) where none is to blame.
    pub fn place(&self) -> Place
        ensures place_described { result ≡ (described self.now).place }
    {
        match self {
            TableFault::Check(check) => check.place(),
            TableFault::TooLarge(place, _) | TableFault::Cycle(place, _) => *place,
        }
    }
}

// Written out: of a failed check, the check alone, as in every layer that holds one.
impl<F: fmt::Debug> fmt::Debug for TableFault<F> {
    fn fmt<W: fmt::Write>(&self, f: &mut fmt::Formatter<W>) -> fmt::Result {
        match self {
            TableFault::Check(check) => fmt::Debug::fmt(check, f),
            TableFault::TooLarge(place, why) => f
                .debug_tuple("TooLarge")
                .field(place)
                .field(why)
                .finish(),
            TableFault::Cycle(place, why) => f
                .debug_tuple("Cycle")
                .field(place)
                .field(why)
                .finish(),
        }
    }
}

// The one text of a refusal, from which the others print.
impl<F> fmt::Display for TableFault<F> {
    ghost output = { λ t. Some (refusal_text (described t)) };

    fn fmt<W: fmt::Write>(&self, f: &mut fmt::Formatter<W>) -> fmt::Result {
        write!(f, "refused {} at {}", self.number(), self.place())
    }
}
