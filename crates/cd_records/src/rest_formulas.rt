//! The formulas of what is left of rows where a label goes.
ghost use Rattle.std.specs.Prelude.{◌≡◌, None, map, length, IfOk, OnOk};
ghost use Rattle.std.specs.List.{AllZip};
ghost use Rattle.cd_syntax.specs.Name.{IsLabel};
ghost use Rattle.cd_model.specs.AllOf.{AllOf};
ghost use Rattle.cd_graph.specs.Nodes.{nodes};
ghost use Rattle.cd_graph.specs.PlainFormula.{plain};
ghost use Rattle.cd_needs.specs.PlainReasons.{plain_labels};
ghost use Rattle.cd_needs.specs.RecordTypes.{plain_row};
ghost use Rattle.cd_rules.specs.Family.{AsksNodes};
ghost use Rattle.cd_records.specs.Inner.Labels.{AreRising};
ghost use Rattle.cd_records.specs.Inner.Leaving.{entries_at, rest_entries, rest_entry};
ghost use Rattle.cd_records.specs.Inner.Plain.{plain_questions, plain_rest, plain_said};
ghost use Rattle.cd_records.specs.Inner.Rests.{HoldsRest, IsOfRests, RestIsIn, joined as joined_of};
ghost use Rattle.cd_records.specs.Inner.Standing.{Adds, HoldsOther, IsMadeFor, IsMeet};

use crate::batch::put;
use crate::labels::{add_cells, add_label};
use crate::made::Made;
use crate::record_type::{other_of, record_of};
use crate::rest::Rest;
use crate::rows::{asked_at, may_lack};
use crate::said::Said;
use cd_graph::fields::is_same;
use cd_graph::{Formula, Formulas, Graph};
use cd_needs::row::Row;
use cd_sets::question::Question;
use cd_syntax::name::Name;
use std::alloc::{AllocError, Global};

/// The formulas for the records of all rests.
pub(crate) fn made_of(
    alloc: Global,
    graph: &Graph,
    rests: &[Rest<'_>],
    label: &Name,
) -> Result<Made, AllocError>
    requires label { IsLabel label.now }
    requires rests { AllOf (RestIsIn (nodes graph.now)) (map plain_rest rests.now) }
    ensures { IfOk result (λ made. IsMadeFor (nodes graph.now)
        (IsOfRests (nodes graph.now) label.now (map plain_rest rests.now))
        (map plain made.batch.items) made.id) }
{
    let mut batch = Vec::new(alloc);
    let formulas = formulas_of(alloc, graph, &mut batch, rests, label)?;
    let id = put(graph, &mut batch, joined(formulas)?)?;
    Ok(Made { batch, id })
}

// The union of formulas, which is the formula itself of one.
fn joined(formulas: Vec<Formula>) -> Result<Formula, AllocError>
    ensures { IfOk result (λ is. plain is ≡ joined_of (map plain formulas.items)) }
{
    if let [one] = formulas.as_slice() {
        return one.copy();
    }
    Ok(Formula::or(Formulas::of(formulas)?))
}

// A formula for each rest.
fn formulas_of(
    alloc: Global,
    graph: &Graph,
    batch: &mut Vec<Formula>,
    rests: &[Rest<'_>],
    label: &Name,
) -> Result<Vec<Formula>, AllocError>
    requires label { IsLabel label.now }
    requires rests { AllOf (RestIsIn (nodes graph.now)) (map plain_rest rests.now) }
    ensures holding { IfOk result (λ formulas. AllZip
        (HoldsRest (nodes graph.now) (map plain batch.new.items) label.now)
        (map plain_rest rests.now) (map plain formulas.items)) }
    ensures adds { OnOk result
        (Adds (nodes graph.now) (map plain batch.old.items) (map plain batch.new.items)) }
{
    let mut formulas = Vec::new(alloc);
    for rest in rests {
        formulas.push(formula_of(alloc, graph, batch, rest, label)?)?;
    }
    Ok(formulas)
}

// The formula for one rest.
fn formula_of(
    alloc: Global,
    graph: &Graph,
    batch: &mut Vec<Formula>,
    rest: &Rest<'_>,
    label: &Name,
) -> Result<Formula, AllocError>
    requires label { IsLabel label.now }
    requires rest { RestIsIn (nodes graph.now) (plain_rest rest.now) }
    ensures holding { IfOk result (λ is. HoldsRest (nodes graph.now) (map plain batch.new.items)
        label.now (plain_rest rest.now) (plain is)) }
    ensures adds { OnOk result
        (Adds (nodes graph.now) (map plain batch.old.items) (map plain batch.new.items)) }
{
    let said = said_of(alloc, rest.row, label)?;
    let record = record_of(alloc, graph, batch, said.as_slice(), &[&rest.row.every])?;
    with_others(
        alloc,
        graph,
        batch,
        said.as_slice(),
        record,
        rest.left.as_slice(),
    )
}

// The formula of a record type and of values that are at other labels.
fn with_others(
    alloc: Global,
    graph: &Graph,
    batch: &mut Vec<Formula>,
    said: &[Said<'_>],
    records: Formula,
    left: &[&Question],
) -> Result<Formula, AllocError>
    requires asks { AllOf (AsksNodes (length (nodes graph.now))) (plain_questions left.now) }
    requires rising { AreRising None (map (λ one. one.0) (map plain_said said.now)) }
    ensures holding { IfOk result (λ is. IsMeet (nodes graph.now) (map plain batch.old.items)
        (map plain batch.new.items) (map plain_said said.now) (plain records)
        (plain_questions left.now) (plain is)) }
    ensures adds { OnOk result
        (Adds (nodes graph.now) (map plain batch.old.items) (map plain batch.new.items)) }
{
    match left {
        [] => Ok(records),
        [_, ..] => meet(alloc, graph, batch, said, records, left),
    }
}

// Their meet.
fn meet(
    alloc: Global,
    graph: &Graph,
    batch: &mut Vec<Formula>,
    said: &[Said<'_>],
    records: Formula,
    left: &[&Question],
) -> Result<Formula, AllocError>
    requires asks { AllOf (AsksNodes (length (nodes graph.now))) (plain_questions left.now) }
    requires rising { AreRising None (map (λ one. one.0) (map plain_said said.now)) }
    ensures holding { IfOk result (λ is. IsMeet (nodes graph.now) (map plain batch.old.items)
        (map plain batch.new.items) (map plain_said said.now) (plain records)
        (plain_questions left.now) (plain is)) }
    ensures adds { OnOk result
        (Adds (nodes graph.now) (map plain batch.old.items) (map plain batch.new.items)) }
{
    let mut others = others_of(alloc, graph, batch, said, left)?;
    let mut all = vec![in alloc; records]?;
    all.append(&mut others)?;
    Ok(Formula::and(Formulas::of(all)?))
}

// A formula for each question that has a value at another label.
fn others_of(
    alloc: Global,
    graph: &Graph,
    batch: &mut Vec<Formula>,
    said: &[Said<'_>],
    left: &[&Question],
) -> Result<Vec<Formula>, AllocError>
    requires asks { AllOf (AsksNodes (length (nodes graph.now))) (plain_questions left.now) }
    requires rising { AreRising None (map (λ one. one.0) (map plain_said said.now)) }
    ensures holding { IfOk result (λ others. AllZip
        (HoldsOther (nodes graph.now) (map plain batch.new.items) (map plain_said said.now))
        (plain_questions left.now) (map plain others.items)) }
    ensures adds { OnOk result
        (Adds (nodes graph.now) (map plain batch.old.items) (map plain batch.new.items)) }
{
    let mut others = Vec::new(alloc);
    for question in left {
        others.push(other_of(alloc, graph, batch, said, question)?)?;
    }
    Ok(others)
}

// What may stand at each label of a row and at the one that goes.
fn said_of<'r>(alloc: Global, row: &'r Row, label: &'r Name) -> Result<Vec<Said<'r>>, AllocError>
    ensures { IfOk result (λ said.
        map plain_said said.items ≡ rest_entries (plain_row row.now) label.now) }
{
    let mut labels = Vec::new(alloc);
    add_cells(row.fields.as_slice(), &mut labels)?;
    add_label(label, &mut labels)?;
    said_at_all(alloc, row, label, labels.as_slice())
}

// What may stand at each of these labels.
fn said_at_all<'r>(
    alloc: Global,
    row: &'r Row,
    label: &Name,
    labels: &[&'r Name],
) -> Result<Vec<Said<'r>>, AllocError>
    ensures { IfOk result (λ said. map plain_said said.items
        ≡ entries_at (plain_row row.now) label.now (plain_labels labels.now)) }
{
    let mut all = Vec::new(alloc);
    for name in labels {
        all.push(said_at(alloc, row, label, name)?)?;
    }
    Ok(all)
}

// Nothing at the label that goes, and at another one what the row says.
fn said_at<'r>(
    alloc: Global,
    row: &'r Row,
    label: &Name,
    name: &'r Name,
) -> Result<Said<'r>, AllocError>
    ensures { IfOk result (λ said.
        plain_said said ≡ (name.now, rest_entry (plain_row row.now) label.now name.now)) }
{
    if is_same(label, name) {
        return Ok(Said {
            label: name,
            optional: true,
            questions: Vec::new(alloc),
        });
    }
    let questions = vec![in alloc; asked_at(row, name)]?;
    Ok(Said {
        label: name,
        optional: may_lack(row, name),
        questions,
    })
}
