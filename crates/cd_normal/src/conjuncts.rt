//! Conjuncts in the making.
ghost use Rattle.std.specs.Prelude.{◌≡◌, ◌<◌, ◌≤◌, ℕ, [], ◌∷◌, ◌++◌, length, map, drop};
ghost use Rattle.std.specs.Prelude.{IfOk, OnOk, IfSome};
ghost use Rattle.cd_graph.specs.Nodes.{nodes};
ghost use Rattle.cd_model.specs.AllOf.{AllOf};
ghost use Rattle.cd_model.specs.Formula.{formula_at};
ghost use Rattle.cd_model.specs.Kinds.{APair, AnXml, ARecord, AFunction};
ghost use Rattle.cd_rules.specs.Family.{AsksNodes};
ghost use Rattle.cd_rules.specs.PartialConjuncts.{partial, partial_conjuncts, signed};
ghost use Rattle.cd_normal.specs.ConjunctsGoOn.{IsOfNodes, GoesBy, IsNeededByTop};
ghost use Rattle.cd_normal.specs.Partials.{partials};
ghost use Rattle.cd_normal.specs.Inner.IsNeed.{AreNeedsOfFirst};
ghost use Rattle.cd_normal.specs.Inner.PlainPartial.{plain_left, plain_partials};

use crate::advance::Advance;
use crate::going_on::go_on;
use crate::kind::Kind;
use crate::literal::Literal;
use crate::needs::needs_of;
use crate::partial::PartialConjunct;
use cd_graph::Graph;
use cd_sets::node_id::NodeId;
use cd_sets::question::Question;
use std::alloc::{AllocError, Global};

/// Conjuncts of a question for the kinds of things that have parts, in the making.
#[derive(Drop)]
pub struct Conjuncts<'g> {
    // The one that is worked at, which is the first for callers, is the last.
    items: Vec<PartialConjunct<'g>>,
}

impl<'g> Conjuncts<'g> {
    /// A conjunct of each kind, of which nothing is chosen yet.
    ///
    /// # Errors
    ///
    /// Want of memory.
    pub fn of(
        alloc: Global,
        graph: &'g Graph,
        question: &Question,
    ) -> Result<Conjuncts<'g>, AllocError>
        requires { AsksNodes (length (nodes graph.now)) question.now }
        ensures conjuncts { IfOk result
            (λ conjuncts. partials conjuncts ≡ partial_conjuncts (nodes graph.now) question.now) }
        ensures of_nodes { IfOk result
            (λ conjuncts. AllOf (IsOfNodes (length (nodes graph.now))) (partials conjuncts)) }
    {
        let items = of_each_kind(formulas_of(alloc, graph, question)?)?;
        // The contract of this call says that the formulas of the graph are sound.
        graph.knows();
        Ok(Conjuncts { items })
    }

    /// Goes on with the first conjunct by its next formula. Where none is left, the conjunct is
    /// taken away, and its clause is given.
    ///
    /// # Errors
    ///
    /// Want of memory.
    pub fn advance(&mut self) -> Result<Advance<'g>, AllocError>
        ensures goes { IfOk result (GoesBy (partials self.old) (partials self.new)) }
        ensures of_nodes { OnOk result ((nodes : ℕ) → AllOf (IsOfNodes nodes) (partials self.old)
            → AllOf (IsOfNodes nodes) (partials self.new)) }
    {
        go_on(&mut self.items)
    }

    /// Questions each of which has to have an element, or the first conjunct fails: those of what
    /// is chosen. None where nothing was chosen since they were looked at.
    ///
    /// # Errors
    ///
    /// Want of memory.
    pub fn needs(&self) -> Result<Option<Vec<Question>>, AllocError>
        ensures needed { IfOk result (λ found. IfSome found
            (λ questions. AllOf (IsNeededByTop (partials self.now)) questions.items)) }
        ensures asks { IfOk result (λ found. IfSome found (λ questions. (nodes : ℕ) → 14 ≤ nodes
            → AllOf (IsOfNodes nodes) (partials self.now)
            → AllOf (AsksNodes nodes) questions.items)) }
    {
        needs_of_last(self.items.as_slice())
    }

    /// Keeps in mind that the needs of the first conjunct were looked at.
    pub fn look(&mut self)
        ensures { partials self.new ≡ partials self.old }
    {
        let count = self.items.len();
        if count > 0 {
            self.items[count - 1].changed = false;
        }
    }

    /// Takes the first conjunct away, if there is one.
    pub fn cut(&mut self)
        ensures { partials self.new ≡ drop 1 (partials self.old) }
    {
        let _first = self.items.pop();
    }
}

// A conjunct of each kind that is to meet these formulas.
fn of_each_kind<'g>(left: Vec<Literal<'g>>) -> Result<Vec<PartialConjunct<'g>>, AllocError>
    ensures { IfOk result (λ conjuncts. plain_partials conjuncts.items
        ≡ map (λ kind. partial kind [] (plain_left left.entry.items))
        (APair ∷ AnXml ∷ ARecord ∷ AFunction ∷ [])) }
{
    let alloc = *left.allocator();
    let mut conjuncts = Vec::with_capacity(alloc, 4)?;
    let copy = Vec::from_slice(alloc, left.as_slice())?;
    conjuncts.push(PartialConjunct::of(Kind::Function, copy))?;
    let copy = Vec::from_slice(alloc, left.as_slice())?;
    conjuncts.push(PartialConjunct::of(Kind::Record, copy))?;
    let copy = Vec::from_slice(alloc, left.as_slice())?;
    conjuncts.push(PartialConjunct::of(Kind::Xml, copy))?;
    conjuncts.push(PartialConjunct::of(Kind::Pair, left))?;
    Ok(conjuncts)
}

// The formulas of a question, those of its first node at the end.
fn formulas_of<'g>(
    alloc: Global,
    graph: &'g Graph,
    question: &Question,
) -> Result<Vec<Literal<'g>>, AllocError>
    requires { AsksNodes (length (nodes graph.now)) question.now }
    ensures { IfOk result
        (λ left. plain_left left.items ≡ signed (nodes graph.now) question.now) }
{
    let mut left = Vec::new(alloc);
    add_formulas(&mut left, graph, question.neg.ids(), false)?;
    add_formulas(&mut left, graph, question.pos.ids(), true)?;
    Ok(left)
}

// Adds the formulas of nodes, that of the first one at the end.
fn add_formulas<'g>(
    left: &mut Vec<Literal<'g>>,
    graph: &'g Graph,
    ids: &[NodeId],
    wanted: bool,
) -> Result<(), AllocError>
    requires { AllOf (λ id. id.0 < length (nodes graph.now)) ids.now }
    ensures { OnOk result (plain_left left.new.items
        ≡ map (λ id. (formula_at (nodes graph.now) id, wanted)) ids.now
        ++ plain_left left.old.items) }
{
    left.reserve(ids.len())?;
    let mut index = ids.len();
    while index > 0 {
        index -= 1;
        left.push(Literal {
            wanted,
            formula: graph.formula(ids[index]),
        })?;
    }
    Ok(())
}

// The needs of the last conjunct, where something was chosen since it was looked at.
fn needs_of_last(conjuncts: &[PartialConjunct<'_>]) -> Result<Option<Vec<Question>>, AllocError>
    ensures { IfOk result (λ found. IfSome found
        (λ questions. AreNeedsOfFirst (plain_partials conjuncts.now) questions.items)) }
{
    match conjuncts.last() {
        Some(top) if top.changed => Ok(Some(needs_of(
            *top.left.allocator(),
            top.kind,
            top.conjunct.as_slice(),
        )?)),
        Some(_) => Ok(None),
        None => Ok(None),
    }
}
