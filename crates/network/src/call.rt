// The calls that a network's history is made of, and what they are answered.
ghost use Rattle.network.specs.Texts.{answer_text, call_text};

use crate::fault::NetworkFault;
use std::fmt;

// One call of a history. E is the semiring's entry.
// An enum, not a closure: a call stands in lists, is printed, and the theory goes along it case by case.
#[derive(Clone, Copy)]
pub enum Call<E> {
    Open(usize),
    Insert(usize, usize, E),
    Edge(usize, usize),
    Closure(usize, usize),
}

impl<E: fmt::Display> fmt::Display for Call<E> {
    ghost output = { λ c. call_text E.Display.output c };

    fn fmt<W: fmt::Write>(&self, f: &mut fmt::Formatter<W>) -> fmt::Result {
        match self {
            Call::Open(n) => write!(f, "open {n} nodes"),
            Call::Insert(i, j, edge) => write!(f, "insert {i} to {j}, {edge}"),
            Call::Edge(i, j) => write!(f, "edge {i} to {j}"),
            Call::Closure(i, j) => write!(f, "closure {i} to {j}"),
        }
    }
}

// What `perform` answered, to be printed.
#[derive(Drop)]
pub struct Answer<E, F>(pub Result<Option<E>, NetworkFault<F>>);

impl<E: fmt::Display, F> fmt::Display for Answer<E, F> {
    ghost output = { λ a. answer_text E.Display.output a.0 };

    fn fmt<W: fmt::Write>(&self, f: &mut fmt::Formatter<W>) -> fmt::Result {
        match &self.0 {
            Ok(None) => write!(f, "accepted"),
            // By `write!`, as the others print: a width or a sign that is asked for changes no answer.
            Ok(Some(entry)) => write!(f, "{entry}"),
            Err(fault) => fault.fmt(f),
        }
    }
}
