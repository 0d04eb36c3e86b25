//! The texts of variables, found by the variables' numbers.

ghost use Rattle.std.specs.Prelude.{◌≡◌, ℕ, IfOk};
ghost use Rattle.term_writer.specs.Views.{text_of, text_in};

use crate::VarText;
use fd_language::NoMemory;
use indexmap::IndexMap;
use std::alloc::Global;

/// The texts, and the place of each variable's first entry among them.
#[derive(Drop)]
pub(crate) struct Names<'v> {
    vars: &'v [VarText],
    places: IndexMap<u64, usize>,
}

impl<'v> Names<'v> {
    pub(crate) fn new(alloc: Global, vars: &'v [VarText]) -> Result<Names<'v>, NoMemory>
        ensures { IfOk result (λ n. (x : ℕ) → text_in n x ≡ text_of vars.now x) }
    {
        let mut places = IndexMap::new(alloc);
        for (place, entry) in vars.iter().enumerate() {
            if places.get(&entry.var).is_none() {
                places.insert(entry.var, place)?;
            }
        }
        Ok(Names { vars, places })
    }

    /// The text of a variable, empty where it has none.
    pub(crate) fn text_of(&self, variable: u64) -> &[u8]
        ensures { result.now ≡ text_in self.now variable }
    {
        match self.places.get(&variable) {
            None => b"",
            Some(place) => match self.vars.get(*place) {
                None => b"",
                Some(entry) => entry.text.as_slice(),
            },
        }
    }
}
