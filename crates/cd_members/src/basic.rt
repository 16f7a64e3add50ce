//! Elements that are integers, characters or atoms.
ghost use Rattle.std.specs.Prelude.{◌≡◌, ◌++◌, List, true, length, IfOk, MatchOption};
ghost use Rattle.cd_sets.specs.declared.question.Question.{Question as AQuestion};
ghost use Rattle.cd_sets.specs.Atoms.{holds, HoldsNoAtom};
ghost use Rattle.cd_syntax.specs.Name.{IsLabel};
ghost use Rattle.cd_graph.specs.Nodes.{nodes};
ghost use Rattle.cd_model.specs.Membership.{asked, answers};
ghost use Rattle.cd_model.specs.Thing.{Thing, IsElement};
ghost use Rattle.cd_rules.specs.BasicSets.{HasNoBasic};
ghost use Rattle.cd_rules.specs.Family.{AsksNodes};
ghost use Rattle.cd_elements.specs.Elements.{table};
ghost use Rattle.cd_elements.specs.Table.{Names, element_at};
ghost use Rattle.cd_normal.specs.HoldNothing.{HoldNothing};
ghost use Rattle.cd_members.specs.Inner.Basic.{IsIn};

use cd_elements::{ElementId, Elements, Shape};
use cd_graph::Graph;
use cd_normal::basic_sets::Basics;
use cd_normal::basics;
use cd_sets::atom_set::AtomSet;
use cd_sets::question::Question;
use cd_syntax::name::Name;
use std::alloc::{AllocError, Global};

/// An integer, a character or an atom that is in a question, if there is one.
///
/// # Errors
///
/// Want of memory. The table stays as it was.
pub fn basic_element(
    alloc: Global,
    graph: &Graph,
    elements: &mut Elements,
    question: &Question,
) -> Result<Option<ElementId>, AllocError>
    requires { AsksNodes (length (nodes graph.now)) question.now }
    ensures found { let all = table elements.new in
        IfOk result (λ found. MatchOption found (HasNoBasic (nodes graph.now) question.now)
        (λ id. Names all id × IsElement (element_at all id)
        × asked (answers (nodes graph.now) (element_at all id)) question.now true)) }
    ensures grows { (more : List Thing) × (table elements.new ≡ table elements.old ++ more) }
{
    let sets = basics(alloc, graph, question)?;
    match some_shape(alloc, &sets)? {
        Some(shape) => Ok(Some(elements.make(shape)?)),
        None => Ok(None),
    }
}

// An integer, a character or an atom of these, if there is one.
fn some_shape(alloc: Global, sets: &Basics) -> Result<Option<Shape>, AllocError>
    ensures { IfOk result (λ found.
        MatchOption found (HoldNothing sets.now) (λ shape. IsIn sets.now shape)) }
{
    if let Some(n) = sets.integers.some_member() {
        return Ok(Some(Shape::Int(n)));
    }
    if let Some(c) = sets.characters.some_member() {
        return Ok(Some(Shape::Char(c)));
    }
    match some_atom(alloc, &sets.atoms)? {
        Some(name) => Ok(Some(Shape::Atom(name))),
        None => Ok(None),
    }
}

// An atom of the set, if it has one.
fn some_atom(alloc: Global, set: &AtomSet) -> Result<Option<Name>, AllocError>
    ensures { IfOk result (λ found. MatchOption found (HoldsNoAtom set.now)
        (λ name. IsLabel name × (holds set.now name ≡ true))) }
{
    match set.some_member()? {
        Some(text) => {
            let name = Name::of(alloc, text.as_str())?;
            Ok(Some(name))
        }
        None => Ok(None),
    }
}
