//! What a listing tells.

use code_listing::PlaceState;
use fd_language::RangeNode;
use wam_code::{Code, Entry, Key, QueryEntry};

/// What a listing tells, line by line. Whether what it names is there isn't said.
#[derive(Drop)]
pub struct Sheet {
    /// The names of the atoms behind the first three of every pool.
    pub atoms: Vec<String>,
    /// The nodes of the ranges, with slots in the place of variables.
    pub ranges: Vec<Vec<RangeNode>>,
    /// The predicates.
    pub entries: Vec<Entry>,
    /// The queries.
    pub queries: Vec<QueryEntry>,
    /// The tables, in the order of the switches that name them.
    pub tables: Vec<Vec<(Key, usize)>>,
    /// The state of each place.
    pub states: Vec<PlaceState>,
    /// The instruction of each place.
    pub code: Vec<Code>,
}
