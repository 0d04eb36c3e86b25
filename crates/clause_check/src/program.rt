//! The program of a text: its goals, clauses and queries over one pool of terms.

ghost use Rattle.std.specs.Prelude.{◌≡◌, ◌<◌, length, map, All, IsTrue, OnOk, OnErr};
ghost use Rattle.fd_language.specs.RangeVerdict.{is_accepted};
ghost use Rattle.clause_check.specs.Programs.{clause_at, goal_at, goals_in, program_in, program_of_parts, query_at, range_at, IsGoal, IsPart, IsProgram};
ghost use Rattle.clause_check.specs.FewerGoals.{keeping_of};

use crate::kept_goals::put_kept;
use fd_language::{INFINITY, NoMemory};
use fd_model::kinds::{BuiltinKind, ConstraintKind, Order};
use monotone_check::Checked;
use std::marker::Model;
use term_pool::{AtomId, Pool, TermId};

/// The goals with the numbers from `from` on, before `to`.
#[derive(Clone, Copy)]
pub struct Part {
    pub from: usize,
    pub to: usize,
}

/// A goal. Its terms are of the program's pool.
#[derive(Clone, Copy)]
pub enum FlatGoal {
    /// `true`.
    True,
    /// `fail` or `false`.
    Fail,
    /// `S = T`.
    Unify(TermId, TermId),
    /// `T in R`: the target, and the number of the range in the program.
    Post(TermId, usize),
    /// A constraint: the whole goal.
    Constrain(ConstraintKind, TermId),
    /// A labelling of a list.
    Label(Order, TermId),
    /// A user goal.
    Call(TermId),
    /// `A ; B`: the goals of both sides.
    Either(Part, Part),
    /// A built-in predicate: the whole goal.
    Builtin(BuiltinKind, TermId),
    /// `!`.
    Cut,
    /// `C -> A` or `C -> A ; B`: the goals of the test, those behind it, and those of the other way where there is one.
    If(Part, Part, Option<Part>),
    /// `\+ C`: the goals of the test.
    Not(Part),
    /// The best leaf of a labelling: its order, whether the least cost is wanted, the list and the cost.
    Best(Order, bool, TermId, TermId),
}

/// A clause: how many variables it has, its head, and the goals of its body.
#[derive(Clone, Copy)]
pub struct FlatClause {
    pub variables: usize,
    pub head: TermId,
    pub body: Part,
}

/// A query: how many variables it has, the names and the numbers of those that answers show, and its goals.
#[derive(Drop)]
pub(crate) struct QueryParts {
    pub variables: usize,
    pub names: Vec<AtomId>,
    pub shown: Vec<u64>,
    pub goals: Part,
}

/// The program of a text. Ranges, goals, clauses and queries are numbered from 0, the clauses and the queries in text order.
#[derive(Drop)]
pub struct Program {
    pool: Pool,
    ranges: Vec<Checked>,
    goals: Vec<FlatGoal>,
    clauses: Vec<FlatClause>,
    queries: Vec<QueryParts>,
}

impl Model for Program {
    ghost use Rattle.std.specs.Coded.{codes};
    ghost use Rattle.fd_model.specs.Levels.{range_coded};
    ghost use Rattle.clause_check.specs.Programs.{FlatProgram, program_of_parts, IsProgram};

    ghost Value = { FlatProgram };

    ghost coded = { Prim.hlevel (codes, range_coded) };

    ghost view = { λ p. program_of_parts p.pool p.ranges.items p.goals.items p.clauses.items
        p.queries.items };

    ghost invariant = { λ p. IsProgram (program_of_parts p.pool p.ranges.items p.goals.items
        p.clauses.items p.queries.items) };
}

impl Program {
    /// The program with these clauses and queries, whose goals name the ranges by their numbers.
    pub(crate) fn from_parts(
        pool: Pool,
        ranges: Vec<Checked>,
        goals: Vec<FlatGoal>,
        clauses: Vec<FlatClause>,
        queries: Vec<QueryParts>,
    ) -> Program
        requires { IsProgram (program_of_parts pool ranges.items goals.items clauses.items
            queries.items) }
        ensures { result ≡ program_of_parts pool ranges.items goals.items clauses.items
            queries.items }
    {
        Program {
            pool,
            ranges,
            goals,
            clauses,
            queries,
        }
    }

    /// What holds of each program: its terms, ranges and goals are there, and it can run. Does nothing.
    pub fn known(&self)
        ensures { IsProgram self.now }
    {
        let _count = self.queries.len();
    }

    /// Leaves to the query q those of its goals that are kept, with a labelling in place of each search for its best leaf. The kept
    /// goals get new numbers, behind all others. For want of memory the program stays as it was.
    pub fn keep_goals(&mut self, q: usize, kept: &[bool]) -> Result<(), NoMemory>
        requires query { q < length self.old.queries }
        requires each { length kept.now ≡ length (goals_in self.old (query_at self.old q).goals) }
        ensures kept { OnOk result
            (program_in self.new ≡ keeping_of q kept.now (program_in self.old)) }
        ensures names { OnOk result (map (λ x. x.names) self.new.queries
            ≡ map (λ x. x.names) self.old.queries) }
        ensures pool { OnOk result (self.new.pool ≡ self.old.pool) }
        ensures no_memory { OnErr result (self.new ≡ self.old) }
    {
        let part = self.queries[q].goals;
        let from = self.goals.len();
        match put_kept(&mut self.goals, part, kept) {
            Ok(()) => {
                let to = self.goals.len();
                self.queries[q].goals = Part { from, to };
                Ok(())
            }
            Err(NoMemory) => {
                self.goals.truncate(from);
                Err(NoMemory)
            }
        }
    }

    /// How many goals there are, in all clauses and queries.
    pub fn goals(&self) -> usize
        ensures { result ≡ length self.now.goals }
    {
        self.goals.len()
    }

    /// The goal with the number i.
    pub fn goal(&self, i: usize) -> FlatGoal
        requires { i < length self.now.goals }
        ensures goal { result ≡ goal_at self.now i }
        ensures own { IsGoal self.now.pool (length self.now.ranges) i result }
    {
        self.goals[i]
    }

    /// How many clauses there are.
    pub fn clauses(&self) -> usize
        ensures { result ≡ length self.now.clauses }
    {
        self.clauses.len()
    }

    /// How many variables the clause c has. They are numbered from 0.
    pub fn variables_of_clause(&self, c: usize) -> usize
        requires { c < length self.now.clauses }
        ensures { result ≡ (clause_at self.now c).variables }
    {
        self.clauses[c].variables
    }

    /// The head of the clause c.
    pub fn head(&self, c: usize) -> TermId
        requires { c < length self.now.clauses }
        ensures head { result ≡ (clause_at self.now c).head }
        ensures own { result.number < length self.now.pool.entries }
    {
        self.clauses[c].head
    }

    /// The goals of the clause c, from left to right.
    pub fn body(&self, c: usize) -> Part
        requires { c < length self.now.clauses }
        ensures body { result ≡ (clause_at self.now c).body }
        ensures within { IsPart (length self.now.goals) result }
    {
        self.clauses[c].body
    }

    /// How many queries there are.
    pub fn queries(&self) -> usize
        ensures { result ≡ length self.now.queries }
    {
        self.queries.len()
    }

    /// How many variables the query q has. They are numbered from 0.
    pub fn variables(&self, q: usize) -> usize
        requires { q < length self.now.queries }
        ensures { result ≡ (query_at self.now q).variables }
    {
        self.queries[q].variables
    }

    /// The names of the variables that answers of the query q show.
    pub fn names(&self, q: usize) -> &[AtomId]
        requires { q < length self.now.queries }
        ensures names { result.now ≡ (query_at self.now q).names }
        ensures own { All (λ a. a.number < length self.now.pool.names) result.now }
    {
        &self.queries[q].names
    }

    /// The numbers of the variables that answers of the query q show, in the order of `names`.
    pub fn shown(&self, q: usize) -> &[u64]
        requires { q < length self.now.queries }
        ensures { result.now ≡ (query_at self.now q).shown }
    {
        &self.queries[q].shown
    }

    /// The goals of the query q, from left to right.
    pub fn goals_of(&self, q: usize) -> Part
        requires { q < length self.now.queries }
        ensures goals { result ≡ (query_at self.now q).goals }
        ensures within { IsPart (length self.now.goals) result }
    {
        self.queries[q].goals
    }

    /// How many ranges the goals name.
    pub fn ranges(&self) -> usize
        ensures { result ≡ length self.now.ranges }
    {
        self.ranges.len()
    }

    /// The range with the number r, as a goal of this program names it.
    pub fn range(&self, r: usize) -> &Checked
        requires { r < length self.now.ranges }
        ensures range { result.now ≡ range_at self.now r }
        ensures accepted { IsTrue (is_accepted INFINITY result.now) }
    {
        &self.ranges[r]
    }

    /// The pool of its terms and names.
    pub fn pool(&self) -> &Pool
        ensures { result.now ≡ self.now.pool }
    {
        &self.pool
    }

    /// The pool, when the program is no longer used.
    pub fn into_pool(self) -> Pool
        ensures { result ≡ self.pool }
    {
        self.pool
    }
}
