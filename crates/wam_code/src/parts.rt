//! What code is made of.

use crate::instruction::{Code, Key};
use range_code::RangeCode;
use std::rc::Rc;
use term_pool::{AtomId, Pool};

/// A predicate: its name, the number of its arguments, and the place of its code.
#[derive(Clone, Copy)]
pub struct Entry {
    pub name: AtomId,
    pub arity: u8,
    pub at: usize,
}

/// A query: its code is from `at` on before `end`, and an answer shows the first slots under these
/// names.
#[derive(Drop)]
pub struct QueryEntry {
    pub at: usize,
    pub end: usize,
    pub names: Vec<AtomId>,
}

/// The instructions, and the tables, ranges, predicates and queries that they name, each by its
/// number from 0. Atoms are of the pool.
#[derive(Drop)]
pub struct CodeParts {
    pub pool: Pool,
    pub code: Vec<Code>,
    pub tables: Vec<Vec<(Key, usize)>>,
    pub ranges: Vec<Rc<RangeCode>>,
    pub entries: Vec<Entry>,
    pub queries: Vec<QueryEntry>,
}
