//! The answers that are read.

ghost use Rattle.std.specs.Prelude.{◌≡◌, ◌*◌, ◌<◌, drop, take, vec_len};

use crate::query::FlatQuery;

/// The values of the variables in each answer, one answer behind the other.
#[derive(Drop)]
pub(crate) struct Answers {
    pub values: Vec<u32>,
    pub variables: usize,
    pub count: usize,
    ghost whole: { vec_len values ≡ count * variables },
}

/// A query, and the answers that are listed for it.
#[derive(Drop)]
pub(crate) struct Listed {
    pub query: FlatQuery,
    pub answers: Answers,
}

impl Answers {
    /// The values of the variables in an answer, counted from 0.
    pub fn row(&self, number: usize) -> &[u32]
        requires { number < self.now.count }
        ensures { result.now ≡ take self.now.variables
            (drop (number * self.now.variables) self.now.values.items) }
    {
        let from = number * self.variables;
        &self.values[from..from + self.variables]
    }

    /// How many there are.
    pub fn count(&self) -> usize
        ensures { result ≡ self.now.count }
    {
        self.count
    }
}
