//! The clause of one conjunct.
ghost use Rattle.std.specs.Prelude.{◌≡◌, IfOk};
ghost use Rattle.cd_model.specs.Kinds.{APair, AnXml, ARecord, AFunction};
ghost use Rattle.cd_rules.specs.PartialConjuncts.{clause_by};
ghost use Rattle.cd_normal.specs.PlainClause.{plain_clause};
ghost use Rattle.cd_normal.specs.Inner.PlainConjunct.{plain_conjunct};
ghost use Rattle.cd_normal.specs.Inner.PlainKind.{plain_kind};

use crate::clause::Clause;
use crate::kind::Kind;
use crate::literal::Literal;
use crate::side::{arrows, pairs, records, xmls};
use std::alloc::{AllocError, Global};
use std::rc::Rc;

/// What a conjunct says of the things of a kind.
pub(crate) fn clause_of<'g>(
    alloc: Global,
    kind: Kind,
    conjunct: &[Literal<'g>],
) -> Result<Clause<'g>, AllocError>
    ensures { IfOk result
        (λ clause. plain_clause clause
        ≡ clause_by (plain_kind kind) (plain_conjunct conjunct.now)) }
{
    match kind {
        Kind::Pair => clause_of_pairs(alloc, conjunct),
        Kind::Xml => clause_of_xmls(alloc, conjunct),
        Kind::Record => clause_of_records(alloc, conjunct),
        Kind::Function => clause_of_arrows(alloc, conjunct),
    }
}

fn clause_of_pairs<'g>(alloc: Global, conjunct: &[Literal<'g>]) -> Result<Clause<'g>, AllocError>
    ensures { IfOk result
        (λ clause. plain_clause clause ≡ clause_by APair (plain_conjunct conjunct.now)) }
{
    let wanted = Rc::new(alloc, pairs(alloc, true, conjunct)?)?;
    let refused = Rc::new(alloc, pairs(alloc, false, conjunct)?)?;
    Ok(Clause::Pairs(wanted, refused))
}

fn clause_of_xmls<'g>(alloc: Global, conjunct: &[Literal<'g>]) -> Result<Clause<'g>, AllocError>
    ensures { IfOk result
        (λ clause. plain_clause clause ≡ clause_by AnXml (plain_conjunct conjunct.now)) }
{
    let (wanted, refused) = xmls(alloc, conjunct)?;
    let wanted = Rc::new(alloc, wanted)?;
    let refused = Rc::new(alloc, refused)?;
    Ok(Clause::Xmls(wanted, refused))
}

fn clause_of_records<'g>(alloc: Global, conjunct: &[Literal<'g>]) -> Result<Clause<'g>, AllocError>
    ensures { IfOk result
        (λ clause. plain_clause clause ≡ clause_by ARecord (plain_conjunct conjunct.now)) }
{
    let wanted = Rc::new(alloc, records(alloc, true, conjunct)?)?;
    let refused = Rc::new(alloc, records(alloc, false, conjunct)?)?;
    Ok(Clause::Records(wanted, refused))
}

fn clause_of_arrows<'g>(alloc: Global, conjunct: &[Literal<'g>]) -> Result<Clause<'g>, AllocError>
    ensures { IfOk result
        (λ clause. plain_clause clause ≡ clause_by AFunction (plain_conjunct conjunct.now)) }
{
    let wanted = Rc::new(alloc, arrows(alloc, true, conjunct)?)?;
    let refused = Rc::new(alloc, arrows(alloc, false, conjunct)?)?;
    Ok(Clause::Arrows(wanted, refused))
}
