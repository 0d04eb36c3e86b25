//! Code that is safe to run.

ghost use Rattle.std.specs.Prelude.{◌≡◌, ◌↔◌, ◌<◌, length, IsTrue};
ghost use Rattle.wam_code.specs.Area.{area_of, table_at, range_at, Holds};
ghost use Rattle.wam_code.specs.Keys.{HasRisingTables};
ghost use Rattle.wam_code.specs.VerifiedCode.{IsVerified, IsThere};

use crate::instruction::{Code, Key};
use crate::parts::CodeParts;
use crate::sorted_tables::have_rising_tables;
use range_code::RangeCode;
use std::marker::Model;
use std::rc::Rc;
use term_pool::Pool;

/// Instructions that are safe to run, with all that they name.
#[derive(Drop)]
pub struct CodeArea {
    parts: CodeParts,
    rising: bool,
}

impl Model for CodeArea {
    ghost use Rattle.std.specs.Coded.{codes};
    ghost use Rattle.fd_model.specs.Levels.{range_coded};
    ghost use Rattle.wam_code.specs.Area.{Area, area_of};
    ghost use Rattle.std.specs.Prelude.{◌↔◌, IsTrue};
    ghost use Rattle.wam_code.specs.Keys.{HasRisingTables};
    ghost use Rattle.wam_code.specs.VerifiedCode.{IsVerified};

    ghost Value = { Area };

    ghost coded = { Prim.hlevel (codes, range_coded) };

    ghost view = { λ a. area_of a.parts };

    ghost invariant = { λ a. IsVerified (area_of a.parts)
        × (IsTrue a.rising ↔ HasRisingTables (area_of a.parts)) };
}

impl CodeArea {
    /// The code with these parts, which is verified: there are states of its places by which each
    /// place finds what it needs, wherever it is reached from.
    pub fn from_verified(parts: CodeParts) -> CodeArea
        requires { IsVerified (area_of parts) }
        ensures { result ≡ area_of parts }
    {
        let rising = have_rising_tables(&parts);
        CodeArea { parts, rising }
    }

    /// Whether the keys of every table rise, so that they can be looked for by halves.
    #[inline]
    pub fn has_rising_tables(&self) -> bool
        ensures { IsTrue result ↔ HasRisingTables self.now }
    {
        self.rising
    }

    /// The parts.
    pub fn parts(&self) -> &CodeParts
        ensures parts { area_of result.now ≡ self.now }
        ensures verified { IsVerified self.now }
    {
        &self.parts
    }

    /// How many queries there are.
    pub fn queries(&self) -> usize
        ensures { result ≡ length self.now.queries }
    {
        self.parts.queries.len()
    }

    /// The pool of its atoms.
    pub fn pool(&self) -> &Pool
        ensures { result.now ≡ self.now.pool }
    {
        &self.parts.pool
    }

    /// The table with this number.
    #[inline]
    pub fn table(&self, t: usize) -> &[(Key, usize)]
        requires { t < length self.now.tables }
        ensures { result.now ≡ table_at self.now t }
    {
        &self.parts.tables[t]
    }

    /// The range with this number.
    #[inline]
    pub fn range(&self, r: usize) -> &Rc<RangeCode>
        requires { r < length self.now.ranges }
        ensures { result.now.value ≡ range_at self.now r }
    {
        &self.parts.ranges[r]
    }

    /// The instruction at a place of the code, as it is kept and where it lies: tables and ranges by their numbers.
    #[inline(always)]
    pub fn code_at(&self, at: usize) -> &Code
        requires { at < length self.now.code }
        ensures holds { Holds self.now at result.now }
        ensures there { IsThere self.now result.now }
    {
        &self.parts.code[at]
    }
}
