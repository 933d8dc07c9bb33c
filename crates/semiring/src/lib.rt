#![tactic(auto)]

ghost use Rattle.std.specs.Prelude.{◌≡◌};
ghost use Rattle.semiring.specs.Algebra.{Semiring as Values, Laws, SelectiveLaws, DijkstraLaws};
ghost use Rattle.semiring.specs.Entries.{Entries, Exact};

// A closed idempotent semiring: what its entries mean, that the laws hold, and the work on entries.
pub trait Semiring {
    type Entry: Copy;

    // the plain form of an entry, in which it lies in a slice
    type Cell: Copy;

    // what the semiring says of a product or a star that it refuses
    type Fault: Drop;

    ghost values: { Values };

    ghost entries: { Entries values Self.Entry Self.Cell Self.Fault };

    fn none() -> Self::Entry
        ensures { result ≡ entries.none };

    fn unit() -> Self::Entry
        ensures { result ≡ entries.unit };

    fn sum(a: Self::Entry, b: Self::Entry) -> Self::Entry
        ensures { result ≡ entries.sum a b };

    // Refused exactly where no entry has the value.
    fn product(a: Self::Entry, b: Self::Entry) -> Result<Self::Entry, Self::Fault>
        ensures { result ≡ entries.product a b };

    // Refused exactly where there is no star.
    fn star(a: Self::Entry) -> Result<Self::Entry, Self::Fault>
        ensures { result ≡ entries.star a };

    fn same(a: Self::Entry, b: Self::Entry) -> bool
        ensures { result ≡ entries.same a b };

    fn is_edge(a: Self::Entry) -> bool
        ensures { result ≡ entries.is_edge a };

    fn read(c: Self::Cell) -> Self::Entry
        ensures { result ≡ entries.read c };

    fn write(a: Self::Entry) -> Self::Cell
        ensures { result ≡ entries.write a };

    ghost laws: { Laws values };

    ghost exact: { Exact entries };
}

// A semiring whose sum is one of its two sides.
pub trait Selective: Semiring {
    fn selective()
        ensures { SelectiveLaws Self.Semiring.values };
}

// A selective semiring in which no value is better than unit.
pub trait Dijkstra: Selective {
    fn dijkstra()
        ensures { DijkstraLaws Self.Semiring.values };
}
