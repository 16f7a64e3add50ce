//! The conjuncts of formulas and of questions for one kind.
ghost use Rattle.std.specs.Prelude.{◌≡◌, ◌<◌, ◌∷◌, ◌++◌, [], true, false, length, map, IfOk};
ghost use Rattle.cd_graph.specs.Nodes.{nodes};
ghost use Rattle.cd_graph.specs.PlainFormula.{plain, plain_list, plain_formulas};
ghost use Rattle.cd_model.specs.AllOf.{AllOf};
ghost use Rattle.cd_rules.specs.Dnf.{when as conjuncts_when};
ghost use Rattle.cd_rules.specs.KindDnf.{is_of as is_of_kind, literal_by, kind_dnf};
ghost use Rattle.cd_rules.specs.KindDnf.{kind_of_each, kind_of_one, kind_at, kind_dnf_of};
ghost use Rattle.cd_normal.specs.Inner.PlainConjunct.{plain_literal, plain_conjunct};
ghost use Rattle.cd_normal.specs.Inner.PlainConjunct.{plain_conjuncts};
ghost use Rattle.cd_normal.specs.Inner.PlainKind.{plain_kind};

use crate::joining::joined;
use crate::kind::{Kind, is_of};
use crate::literal::Literal;
use cd_graph::{Formula, Formulas, Graph};
use cd_sets::node_id::NodeId;
use cd_sets::question::Question;
use std::alloc::{AllocError, Global};

/// The conjuncts of a question for a kind.
pub(crate) fn dnf_of<'g>(
    alloc: Global,
    graph: &'g Graph,
    kind: Kind,
    question: &Question,
) -> Result<Vec<Vec<Literal<'g>>>, AllocError>
    requires pos { AllOf (λ id. id.0 < length (nodes graph.now)) question.now.pos }
    requires neg { AllOf (λ id. id.0 < length (nodes graph.now)) question.now.neg }
    ensures { IfOk result (λ dnf. plain_conjuncts dnf.items
        ≡ kind_dnf_of (plain_kind kind) (nodes graph.now) question.now) }
{
    let inside = dnf_at(alloc, graph, kind, question.pos.ids(), true)?;
    let outside = dnf_at(alloc, graph, kind, question.neg.ids(), false)?;
    joined(alloc, inside.as_slice(), outside.as_slice())
}

// One conjunct of each of these nodes.
fn dnf_at<'g>(
    alloc: Global,
    graph: &'g Graph,
    kind: Kind,
    ids: &[NodeId],
    wanted: bool,
) -> Result<Vec<Vec<Literal<'g>>>, AllocError>
    requires { AllOf (λ id. id.0 < length (nodes graph.now)) ids.now }
    ensures { IfOk result (λ dnf.
        plain_conjuncts dnf.items ≡ kind_at (plain_kind kind) (nodes graph.now) ids.now wanted) }
{
    let mut all = when(alloc, true)?;
    let mut index = ids.len();
    while index > 0 {
        index -= 1;
        let first = dnf(alloc, kind, graph.formula(ids[index]), wanted)?;
        all = joined(alloc, first.as_slice(), all.as_slice())?;
    }
    Ok(all)
}

// The conjuncts of a formula for a kind.
#[cycle(dnf)]
fn dnf<'g>(
    alloc: Global,
    kind: Kind,
    formula: &'g Formula,
    wanted: bool,
) -> Result<Vec<Vec<Literal<'g>>>, AllocError>
    ensures { IfOk result (λ dnf.
        plain_conjuncts dnf.items ≡ kind_dnf (plain_kind kind) (plain formula.now) wanted) }
{
    match formula {
        Formula::None => when(alloc, !wanted),
        Formula::All => when(alloc, wanted),
        Formula::And(formulas) if wanted => of_each(alloc, kind, formulas, true),
        Formula::And(formulas) => of_one(alloc, kind, formulas, false),
        Formula::Or(formulas) if wanted => of_one(alloc, kind, formulas, true),
        Formula::Or(formulas) => of_each(alloc, kind, formulas, false),
        Formula::Not(inner) => dnf(alloc, kind, inner, !wanted),
        Formula::Ints(_)
        | Formula::Chars(_)
        | Formula::Atoms(_)
        | Formula::Pair(_, _)
        | Formula::Xml(_, _, _)
        | Formula::Record(_)
        | Formula::Arrow(_, _) => literal(alloc, kind, Literal { wanted, formula }),
    }
}

// One conjunct of each of the formulas.
#[cycle(dnf)]
fn of_each<'g>(
    alloc: Global,
    kind: Kind,
    formulas: &'g Formulas,
    wanted: bool,
) -> Result<Vec<Vec<Literal<'g>>>, AllocError>
    ensures { IfOk result (λ dnf. plain_conjuncts dnf.items
        ≡ kind_of_each (plain_kind kind) (plain_formulas formulas.now) wanted) }
{
    let formulas = formulas.items();
    let mut all = when(alloc, true)?;
    let mut index = formulas.len();
    while index > 0 {
        index -= 1;
        let first = dnf(alloc, kind, &formulas[index], wanted)?;
        all = joined(alloc, first.as_slice(), all.as_slice())?;
    }
    Ok(all)
}

// The conjuncts of one of the formulas.
#[cycle(dnf)]
fn of_one<'g>(
    alloc: Global,
    kind: Kind,
    formulas: &'g Formulas,
    wanted: bool,
) -> Result<Vec<Vec<Literal<'g>>>, AllocError>
    ensures { IfOk result (λ dnf. plain_conjuncts dnf.items
        ≡ kind_of_one (plain_kind kind) (plain_formulas formulas.now) wanted) }
{
    let formulas = formulas.items();
    let mut all = Vec::new(alloc);
    let mut index = formulas.len();
    while index > 0 {
        index -= 1;
        let first = dnf(alloc, kind, &formulas[index], wanted)?;
        all = before(first, all)?;
    }
    Ok(all)
}

// These conjuncts, and then the others.
fn before<'g>(
    dnf: Vec<Vec<Literal<'g>>>,
    others: Vec<Vec<Literal<'g>>>,
) -> Result<Vec<Vec<Literal<'g>>>, AllocError>
    ensures { IfOk result (λ all.
        plain_conjuncts all.items ≡ plain_conjuncts dnf.entry.items
        ++ plain_conjuncts others.entry.items) }
{
    let mut all = dnf;
    let mut others = others;
    all.append(&mut others)?;
    Ok(all)
}

// The conjuncts of a literal: of a formula of another kind none where it is wanted, and one that
// asks for nothing where it is refused.
fn literal<'g>(
    alloc: Global,
    kind: Kind,
    literal: Literal<'g>,
) -> Result<Vec<Vec<Literal<'g>>>, AllocError>
    ensures { IfOk result (λ dnf. plain_conjuncts dnf.items
        ≡ literal_by (is_of_kind (plain_kind kind) (plain literal.entry.formula.now))
        literal.entry.wanted (plain literal.entry.formula.now)) }
{
    if is_of(kind, literal.formula) {
        only(alloc, literal)
    } else {
        when(alloc, !literal.wanted)
    }
}

// The conjunct of this literal alone.
fn only<'g>(alloc: Global, literal: Literal<'g>) -> Result<Vec<Vec<Literal<'g>>>, AllocError>
    ensures { IfOk result (λ dnf.
        plain_conjuncts dnf.items ≡ (plain_literal literal.entry ∷ []) ∷ []) }
{
    let mut conjunct = Vec::new(alloc);
    conjunct.push(literal)?;
    let mut dnf = Vec::new(alloc);
    dnf.push(conjunct)?;
    Ok(dnf)
}

// The conjunct that asks for nothing, or none.
fn when<'g>(alloc: Global, holds: bool) -> Result<Vec<Vec<Literal<'g>>>, AllocError>
    ensures { IfOk result (λ dnf. plain_conjuncts dnf.items ≡ conjuncts_when holds) }
{
    let mut dnf = Vec::new(alloc);
    if holds {
        dnf.push(Vec::new(alloc))?;
    }
    Ok(dnf)
}
