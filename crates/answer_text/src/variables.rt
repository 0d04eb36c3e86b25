//! The open variables of a text: their numbers, their sets and their texts.

ghost use Rattle.std.specs.Prelude.{◌≡◌, ◌<◌, ◌++◌, ℕ, List, length, reverse, Option, option_copied, IfOk, OnOk};
ghost use Rattle.fd_language.specs.Variables.{variables_of};
ghost use Rattle.fd_model.specs.Lines.{open_part};
ghost use Rattle.term_pool.specs.Terms.{term_of};
ghost use Rattle.answer_text.specs.Pieces.{inserted};
ghost use Rattle.answer_text.specs.Variables.{open_by, AreTexts, GiveTexts, HasSets, set_by};

use crate::domains::put_domain;
use crate::numbers::put_number;
use domain_ranges::Domain;
use fd_language::NoMemory;
use indexmap::{IndexMap, IndexSet};
use std::alloc::Global;
use term_pool::{Node, Pool, TermId};
use term_writer::VarText;

/// The set of each variable that has one: the first of them.
pub(crate) fn sets_of<'s>(
    alloc: Global,
    sets: &'s [(u64, Domain)],
) -> Result<IndexMap<u64, &'s Domain>, NoMemory>
    ensures { IfOk result (HasSets sets.now) }
{
    let mut found = IndexMap::new(alloc);
    for (variable, set) in sets {
        if found.get(variable).is_none() {
            found.insert(*variable, set)?;
        }
    }
    Ok(found)
}

/// Puts terms behind those that are ahead, so that the first of them is the next.
fn put_ahead(ahead: &mut Vec<TermId>, terms: &[TermId]) -> Result<(), NoMemory>
    ensures { OnOk result (ahead.new.items ≡ ahead.old.items ++ reverse terms.now) }
{
    for i in (0..terms.len()).rev() {
        ahead.push(terms[i])?;
    }
    Ok(())
}

/// Puts the variables of a term behind those that were met, each once, by first occurrence.
fn put_variables(
    alloc: Global,
    pool: &Pool,
    t: TermId,
    own: &mut IndexSet<u64>,
) -> Result<(), NoMemory>
    requires { t.number < length pool.now.entries }
    ensures { OnOk result (own.new.keys
        ≡ inserted own.old.keys (variables_of (term_of pool.now t))) }
{
    let mut ahead = Vec::new(alloc);
    ahead.push(t)?;
    while let Some(next) = ahead.pop() {
        match pool.view(next) {
            Node::Var(variable) => {
                own.insert_full(variable)?;
            }
            Node::Int(_) => {}
            Node::Atom(_) => {}
            Node::Comp(_, parts) => put_ahead(&mut ahead, parts)?,
        }
    }
    Ok(())
}

/// The text of an open variable with this number: where it is constrained its set follows.
fn variable_text(alloc: Global, number: u64, set: Option<&Domain>) -> Result<Vec<u8>, NoMemory>
    ensures { IfOk result (λ text. text.items ≡ open_part number (option_copied set.entry)) }
{
    let mut text = Vec::new(alloc);
    text.push(b'_')?;
    put_number(&mut text, number)?;
    if let Some(set) = set {
        put_domain(&mut text, set)?;
    }
    Ok(text)
}

/// The texts of variables. One has the number, from 1, that it got when it was first met; `numbers` has those that were met, in
/// this order.
fn variable_texts(
    alloc: Global,
    variables: &[u64],
    sets: &IndexMap<u64, &Domain>,
    numbers: &mut IndexSet<u64>,
) -> Result<Vec<VarText>, NoMemory>
    ensures numbers { OnOk result (numbers.new.keys ≡ inserted numbers.old.keys variables.now) }
    ensures texts { IfOk result (λ texts. (more : List ℕ) →
        AreTexts (open_by (set_by sets.now) (numbers.new.keys ++ more)) variables.now texts.items) }
{
    let mut texts = Vec::new(alloc);
    for variable in variables {
        let (index, _) = numbers.insert_full(*variable)?;
        let met = numbers.len();
        prove!(index < met);
        let set = sets.get(variable).copied();
        let text = variable_text(alloc, index as u64 + 1, set)?;
        texts.push(VarText {
            var: *variable,
            text,
        })?;
    }
    Ok(texts)
}

/// The texts of a term's variables, where the terms before it have met those of `numbers`.
pub(crate) fn texts_of(
    alloc: Global,
    pool: &Pool,
    t: TermId,
    sets: &IndexMap<u64, &Domain>,
    numbers: &mut IndexSet<u64>,
) -> Result<Vec<VarText>, NoMemory>
    requires { t.number < length pool.now.entries }
    ensures numbers { OnOk result (numbers.new.keys
        ≡ inserted numbers.old.keys (variables_of (term_of pool.now t))) }
    ensures texts { IfOk result (λ texts. (more : List ℕ) → GiveTexts
        (open_by (set_by sets.now) (numbers.new.keys ++ more)) (term_of pool.now t) texts.items) }
{
    let mut own = IndexSet::new(alloc);
    put_variables(alloc, pool, t, &mut own)?;
    variable_texts(alloc, own.as_slice(), sets, numbers)
}
