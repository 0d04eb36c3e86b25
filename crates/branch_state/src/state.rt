//! A branch: the current heap and level of the store, and the pairs below.

ghost use Rattle.std.specs.Prelude.{◌≡◌, ◌<◌, ◌≤◌, ◌+◌, ◌++◌, All, IfOk, OnOk, MatchOption, Some, None, length};
ghost use Rattle.fd_language.specs.declared.TheConstants.{INFINITY};
ghost use Rattle.fd_model.specs.BestPosted.{IsCostOf, SoughtValues};
ghost use Rattle.bound_search.specs.Members.{AreOwn, member_of, members_of};
ghost use Rattle.heap_cells.specs.declared.Cell.TheVariants as cell;
ghost use Rattle.heap_cells.specs.Cells.{free, slot_at, with_new_slot};
ghost use Rattle.unify_core.specs.Outcome.{IfTrue, IfFalse};
ghost use Rattle.unify_core.specs.Unifications.{CannotUnify, IsEqualled};
ghost use Rattle.branch_state.specs.States.{first_heaps, first_levels, first_state, with_heap, with_pair, without_pairs, HasNoModel, IsGreatest, IsSound, IsSoundBelow, IsSameBelow, IsUndone, IsCell};
ghost use Rattle.branch_state.specs.VariableBounds.{new_bounds};
ghost use Rattle.branch_state.specs.Steps.{AreTouchesBelow, AreTouchesOf, posted_with};
ghost use Rattle.branch_state.specs.Compounds.{IsMade, IsCompoundOf, BindsCompound};
ghost use Rattle.branch_state.specs.Constraints.{Constrains};
ghost use Rattle.branch_state.specs.ShownTerms.{IsShown};
ghost use Rattle.branch_state.specs.CellPosts.{PostsCells};
ghost use Rattle.range_code.specs.Slots.{slots_of};

use crate::bounds::NewVars;
use crate::cell_looks::{find_cells_offence, look_cell};
use crate::cells::prepare_cells;
use crate::codes::{Codes, know_code};
use crate::constraints::{expand_goal, fault_of, prepare_row};
use crate::heap_facts::know;
use crate::open_vars::add_bounded;
use crate::posting::{post_all, post_prepared, post_rows};
use crate::posting_lists::Recent;
use crate::shown_terms::show_cells;
use crate::step::{Step, step_of};
use bound_search::{Aim, best};
use fd_language::NoMemory;
use fd_model::kinds::{ConstraintKind, Order};
use heap_cells::{Cell, Heap};
use label_search::Member;
use machine_events::Shown;
use propagate_queue::{Agenda, Store};
use range_code::{Activations, RangeCode};
use std::alloc::Global;
use std::marker::Model;
use std::rc::Rc;
use term_pool::{AtomId, Pool};
use unify_core::{Touch, are_others, unify_into};

/// A heap and a store, as a list of pairs of which the first is the current one.
///
/// Want of memory is told by `NoMemory`. A call that changes the branch may have done a part of it then: no call but `heap` and `store`
/// is made any more. The pairs below are as they were.
#[derive(Drop)]
pub struct BranchState<A: Agenda + Drop> {
    alloc: Global,
    atoms: usize,
    infinity: u32,
    heap: Heap,
    store: Store<A>,
    activations: Activations,
    own_codes: Codes,
    recent: Recent,
    terms: Option<Pool>,
}

impl<A: Agenda + Drop> Model for BranchState<A> {
    ghost use Rattle.branch_state.specs.States.{State};

    ghost Value = { State };

    ghost use Rattle.std.specs.Coded.{codes};
    ghost use Rattle.fd_model.specs.Levels.{levels_coded};

    ghost coded = { Prim.hlevel (codes, levels_coded) };

    ghost view = { λ s. record {
      atoms = s.atoms;
      infinity = s.infinity;
      heaps = s.heap;
      levels = s.store;
    } };
}

/// An empty heap, and an equal one below it.
fn first_heap(alloc: Global) -> Result<Heap, NoMemory>
    ensures { IfOk result (λ h. h ≡ first_heaps) }
{
    let mut heap = Heap::new(alloc);
    heap.mark()?;
    Ok(heap)
}

/// A store with no variables, and an equal level below the current one.
fn first_store<A: Agenda + Drop>(alloc: Global, agenda: A) -> Result<Store<A>, NoMemory>
    ensures { IfOk result (λ s. s ≡ first_levels) }
{
    let mut store = Store::new(alloc, agenda);
    store.push_mark()?;
    Ok(store)
}

impl<A: Agenda + Drop> BranchState<A> {
    /// A branch with no variables, whose cells name the first `atoms` atoms of a pool, and an equal one below it. No variable of the store
    /// may have a number beyond `infinity`. The error is want of memory; the agenda is gone then.
    pub fn new(
        alloc: Global,
        agenda: A,
        atoms: usize,
        infinity: u32,
    ) -> Result<BranchState<A>, NoMemory>
        requires { IsGreatest infinity }
        ensures first { IfOk result (λ s. s ≡ first_state atoms infinity) }
        ensures sound { IfOk result IsSound }
    {
        let own_codes = Codes::new(alloc)?;
        let heap = first_heap(alloc)?;
        let store = first_store(alloc, agenda)?;
        store.known();
        Ok(BranchState {
            alloc,
            atoms,
            infinity,
            heap,
            store,
            activations: Activations::new(),
            own_codes,
            recent: Recent::new(alloc),
            terms: None,
        })
    }

    /// The heaps. No memory.
    #[inline]
    pub fn heap(&self) -> &Heap
        ensures { result.now ≡ self.now.heaps }
    {
        &self.heap
    }

    /// The greatest number that a variable of the store may have. No memory.
    #[inline]
    pub fn infinity(&self) -> u32
        ensures { result ≡ self.now.infinity }
    {
        self.infinity
    }

    /// The store. No memory.
    #[inline]
    pub fn store(&self) -> &Store<A>
        ensures { result.now ≡ self.now.levels }
    {
        &self.store
    }

    /// A new variable of the heap, which is open. After an error the branch isn't used any more.
    #[inline(always)]
    pub fn new_var(&mut self) -> Result<Cell, NoMemory>
        requires sound { IsSound self.old }
        ensures id { IfOk result (λ c. c ≡ cell.Ref (length self.old.heaps.now.slots)) }
        ensures added { OnOk result (self.new
            ≡ with_heap self.old (with_new_slot self.old.heaps.now)) }
        ensures sound { OnOk result (IsSound self.new) }
    {
        self.heap.new_var()
    }

    /// A new compound term of cells of the branch. After an error the branch isn't used any more.
    #[inline(always)]
    pub fn compound(&mut self, f: AtomId, args: &[Cell]) -> Result<Cell, NoMemory>
        requires sound { IsSound self.old }
        requires name { f.number < self.old.atoms }
        requires cells { All (IsCell self.old) args.now }
        ensures made { IfOk result (IsMade f args.now self.old self.new) }
        ensures heap { OnOk result (self.new ≡ with_heap self.old self.new.heaps.now) }
        ensures sound { OnOk result (IsSound self.new) }
    {
        self.heap.new_struct(f, args)
    }

    /// Puts a copy of the current pair below it. After an error the branch isn't used any more.
    pub fn mark(&mut self) -> Result<(), NoMemory>
        requires sound { IsSound self.old }
        ensures marked { OnOk result (self.new ≡ with_pair self.old) }
        ensures sound { OnOk result (IsSound self.new) }
    {
        self.heap.mark()?;
        self.store.push_mark()
    }

    /// Gives the pair below back. The last one is never given back. No memory.
    pub fn undo(&mut self)
        requires sound { IsSoundBelow self.old }
        requires marked { 1 < length self.old.heaps.below }
        ensures undone { IsUndone self.old self.new }
        ensures sound { IsSound self.new }
    {
        self.heap.undo_to_mark();
        self.store.pop_mark();
    }

    /// Gives the pair below back, which stays below as well, as `undo` and then `mark` do. No memory.
    #[inline]
    pub fn reset_to_mark(&mut self)
        requires sound { IsSoundBelow self.old }
        requires marked { 1 < length self.old.heaps.below }
        ensures undone { IsUndone self.old (without_pairs self.new 1) }
        ensures pair { self.new ≡ with_pair (without_pairs self.new 1) }
        ensures under { IsSound (without_pairs self.new 1) }
        ensures sound { IsSound self.new }
    {
        self.heap.reset_to_mark();
        self.store.reset_to_mark();
    }

    /// Takes away the `n` pairs directly below the current one, of which there are more. No memory.
    #[inline]
    pub fn drop_marks(&mut self, n: usize)
        requires sound { IsSound self.old }
        requires some { n < length self.old.heaps.below }
        ensures dropped { self.new ≡ without_pairs self.old n }
        ensures sound { IsSound self.new }
    {
        self.heap.drop_marks(n);
        self.store.drop_marks(n);
    }

    /// Makes two cells equal, and puts what the store is to be told behind `touches`. `false` comes exactly where they can't be equal;
    /// then the current pair is to be given up by `undo`. After an error neither branch nor `touches` is used any more.
    #[inline]
    pub fn unify(&mut self, a: Cell, b: Cell, touches: &mut Vec<Touch>) -> Result<bool, NoMemory>
        requires sound { IsSound self.old }
        requires own_a { IsCell self.old a }
        requires own_b { IsCell self.old b }
        ensures equal { IfTrue result (IsEqualled self.old.heaps.now a b self.new.heaps.now
            touches.old.items touches.new.items) }
        ensures unequal { IfFalse result (CannotUnify self.old.heaps.now a b) }
        ensures touches { AreTouchesOf self.old touches.old.items
            → IfTrue result (AreTouchesOf self.new touches.new.items) }
        ensures heap { self.new ≡ with_heap self.old self.new.heaps.now }
        ensures sound { IfTrue result (IsSound self.new) }
        ensures below { IfFalse result (IsSoundBelow self.new) }
    {
        unify_into(&mut self.heap, self.alloc, a, b, touches)
    }

    /// Makes an open variable equal to a compound term of these cells, as `unify` does. Where none of them comes to a compound term or to
    /// the variable, it is bound at once.
    #[inline(always)]
    fn bind_built(
        &mut self,
        var: usize,
        built: Cell,
        args: &[Cell],
        touches: &mut Vec<Touch>,
    ) -> Result<bool, NoMemory>
        requires sound { IsSound self.old }
        requires there { var < length self.old.heaps.now.slots }
        requires open { slot_at self.old.heaps.now var ≡ free }
        requires own { IsCell self.old built }
        requires cells { All (IsCell self.old) args.now }
        requires compound { IsCompoundOf self.old.heaps.now args.now built }
        ensures equal { IfTrue result (IsEqualled self.old.heaps.now (cell.Ref var) built
            self.new.heaps.now touches.old.items touches.new.items) }
        ensures unequal { IfFalse result (CannotUnify self.old.heaps.now (cell.Ref var) built) }
        ensures touches { AreTouchesOf self.old touches.old.items
            → IfTrue result (AreTouchesOf self.new touches.new.items) }
        ensures heap { self.new ≡ with_heap self.old self.new.heaps.now }
        ensures sound { IfTrue result (IsSound self.new) }
        ensures below { IfFalse result (IsSoundBelow self.new) }
    {
        if !are_others(&self.heap, var, args) {
            return self.unify(Cell::Ref(var), built, touches);
        }
        self.heap.bind(var, built)?;
        Ok(true)
    }

    /// Makes a new compound term of cells of the branch, and makes an open variable equal to it, as `compound` and `unify` do. `false`
    /// comes exactly where the variable occurs in it; then the current pair is to be given up by `undo`. After an error neither branch
    /// nor `touches` is used any more.
    #[inline(always)]
    pub fn bind_compound(
        &mut self,
        var: usize,
        f: AtomId,
        args: &[Cell],
        touches: &mut Vec<Touch>,
    ) -> Result<bool, NoMemory>
        requires sound { IsSound self.old }
        requires there { var < length self.old.heaps.now.slots }
        requires open { slot_at self.old.heaps.now var ≡ free }
        requires name { f.number < self.old.atoms }
        requires cells { All (IsCell self.old) args.now }
        ensures binds { IfOk result (BindsCompound f args.now var self.old self.new
            touches.old.items touches.new.items) }
        ensures touches { AreTouchesOf self.old touches.old.items
            → IfTrue result (AreTouchesOf self.new touches.new.items) }
        ensures heap { OnOk result (self.new ≡ with_heap self.old self.new.heaps.now) }
        ensures sound { IfTrue result (IsSound self.new) }
        ensures below { IfFalse result (IsSoundBelow self.new) }
    {
        let built = self.compound(f, args)?;
        self.bind_built(var, built, args, touches)
    }

    /// Tells the store of touches: the ranges that say so are posted behind the others. `false` comes exactly where all have no model;
    /// then the current pair is to be given up by `undo`. Where there are no touches nothing is done. After an error the branch isn't used
    /// any more.
    #[inline(always)]
    pub fn post_touches(&mut self, touches: &[Touch]) -> Result<bool, NoMemory>
        requires sound { IsSound self.old }
        requires touches { AreTouchesBelow (length self.old.levels.current.sets) touches.now }
        ensures posted { IfTrue result (self.new.levels.current.posted
            ≡ posted_with self.old touches.now) }
        ensures none { IfFalse result (HasNoModel INFINITY
            (posted_with self.old touches.now)) }
        ensures heap { self.new.heaps ≡ self.old.heaps }
        ensures same { IsSameBelow self.old self.new }
        ensures sound { IfTrue result (IsSound self.new) }
        ensures below { IfFalse result (IsSoundBelow self.new) }
    {
        if touches.is_empty() {
            return Ok(true);
        }
        post_all(
            self.alloc,
            &mut self.store,
            &mut self.activations,
            &self.own_codes,
            touches,
        )
    }

    /// Posts `T in R` on the cell of its target and those of the range's slots, where `code` is the code of the range. After a failure the
    /// current pair is to be given up by `undo`; after a fault the branch is as it was. After an error the branch isn't used any more.
    pub fn post_cells(
        &mut self,
        code: &Rc<RangeCode>,
        target: Cell,
        cells: &[Cell],
    ) -> Result<Step, NoMemory>
        requires sound { IsSound self.old }
        requires target { IsCell self.old target }
        requires cells { All (IsCell self.old) cells.now }
        requires counted { length cells.now ≡ length (slots_of code.now.value) }
        ensures step { IfOk result (PostsCells self.old target cells.now code.now.value self.new) }
        ensures same { OnOk result (IsSameBelow self.old self.new) }
    {
        know_code(code);
        let look = look_cell(&self.heap, &self.store, target);
        let offence = find_cells_offence(&self.heap, &self.store, code, look, cells);
        if let Some(fault) = offence {
            return Ok(Step::Fault(fault));
        }
        let made = NewVars {
            first: self.store.vars(),
            infinity: self.infinity,
        };
        let prepared = prepare_cells(
            self.alloc,
            &mut self.heap,
            &mut self.store,
            code,
            look,
            cells,
        )?;
        let kept = post_prepared(
            self.alloc,
            &mut self.store,
            &mut self.activations,
            &self.own_codes,
            code,
            prepared,
            made,
        )?;
        Ok(step_of(kept))
    }

    /// Posts a constraint, whose goal is the term of a cell. `pool` has the atoms that cells name. After a failure the current pair is to be
    /// given up by `undo`; after a fault the branch is as it was. After an error the branch isn't used any more.
    pub fn constrain(
        &mut self,
        pool: &Pool,
        kind: ConstraintKind,
        goal: Cell,
    ) -> Result<Step, NoMemory>
        requires sound { IsSound self.old }
        requires atoms { length pool.now.names ≡ self.old.atoms }
        requires cell { IsCell self.old goal }
        ensures step { IfOk result (Constrains pool.now.names self.old kind goal self.new) }
        ensures same { OnOk result (IsSameBelow self.old self.new) }
    {
        let expanded = expand_goal(
            self.alloc,
            &self.heap,
            &self.store,
            pool,
            kind,
            goal,
            &mut self.terms,
        );
        let expansion = match expanded {
            Ok(expansion) => expansion,
            Err(fault) => return Ok(Step::Fault(fault_of(fault)?)),
        };
        let made = NewVars {
            first: self.store.vars(),
            infinity: self.infinity,
        };
        let listed = prepare_row(
            self.alloc,
            &mut self.heap,
            &mut self.store,
            &mut self.recent,
            expansion,
        )?;
        know(&self.heap);
        let kept = post_rows(
            self.alloc,
            &mut self.store,
            &mut self.activations,
            &self.own_codes,
            listed,
            made,
        )?;
        Ok(step_of(kept))
    }

    /// What `bound_search::best` finds for these members, of which so many are variables behind the store's own, which are bounded alone:
    /// the values of the list's variables in the first best leaf of its labelling, and `None` where there is no leaf. All is then as
    /// before. After an error the branch isn't used any more.
    pub fn best_leaf(
        &mut self,
        added: usize,
        order: Order,
        list: &[Member],
        cost: Member,
        least: bool,
    ) -> Result<Option<Vec<u32>>, NoMemory>
        requires sound { IsSound self.old }
        requires list { AreOwn (length self.old.levels.current.sets + added) list.now }
        requires cost { IsCostOf (members_of list.now) (member_of cost) }
        ensures found { IfOk result (λ found. MatchOption found
            (SoughtValues INFINITY order (members_of list.now) (member_of cost) least
            (self.old.levels.current.posted ++ new_bounds self.old.infinity
            (length self.old.levels.current.sets) added) None)
            (λ values. SoughtValues INFINITY order (members_of list.now) (member_of cost) least
            (self.old.levels.current.posted ++ new_bounds self.old.infinity
            (length self.old.levels.current.sets) added) (Some values.items))) }
        ensures same { OnOk result (self.new ≡ self.old) }
    {
        self.store.push_mark()?;
        let kept = add_bounded(
            self.alloc,
            &mut self.store,
            &mut self.activations,
            &self.own_codes,
            self.infinity,
            added,
        )?;
        if !kept {
            self.store.pop_mark();
            return Ok(None);
        }
        let found = best(
            self.alloc,
            &mut self.store,
            &self.own_codes.exact,
            list,
            Aim { order, cost, least },
            &mut self.activations,
        )?;
        self.store.pop_mark();
        Ok(found)
    }

    /// What the branch shows of cells: their terms, where a variable of the store with one value is that integer, and the domains of the
    /// others that occur. `pool` has the atoms that the cells name. The error is want of memory; nothing has changed then.
    pub fn show(&self, pool: &Pool, cells: &[Cell]) -> Result<Shown, NoMemory>
        requires sound { IsSound self.now }
        requires atoms { length pool.now.names ≡ self.now.atoms }
        requires cells { All (IsCell self.now) cells.now }
        ensures { IfOk result (IsShown pool.now.names self.now.heaps.now
            self.now.levels.current.sets cells.now) }
    {
        show_cells(self.alloc, &self.heap, &self.store, pool, cells)
    }
}
