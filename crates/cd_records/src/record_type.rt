//! Record types of what may stand at labels.
ghost use Rattle.std.specs.Prelude.{◌≡◌, None, length, map, IfOk, OnOk};
ghost use Rattle.cd_model.specs.AllOf.{AllOf};
ghost use Rattle.cd_graph.specs.Nodes.{nodes};
ghost use Rattle.cd_graph.specs.PlainFormula.{plain, plain_named};
ghost use Rattle.cd_rules.specs.Family.{AsksNodes};
ghost use Rattle.cd_records.specs.Inner.Labels.{AreRising};
ghost use Rattle.cd_records.specs.Inner.Plain.{plain_questions, plain_said};
ghost use Rattle.cd_records.specs.Inner.Standing.{Adds, AreFieldsOf, EntryAsks};
ghost use Rattle.cd_records.specs.Inner.Standing.{HoldsOther, HoldsRecords, IsAsSaid, open_fields};

use crate::said::Said;
use crate::union::{node_of, outside};
use cd_graph::built_in::ANY;
use cd_graph::fields::{Field, FieldList, Fields};
use cd_graph::{Formula, Graph};
use cd_sets::question::Question;
use cd_syntax::name::Name;
use std::alloc::{AllocError, Global};
use std::rc::Rc;

/// The formula of the records that have at each label what is said of it, and at others nothing or
/// what is in one of the questions. Formulas for its nodes are added.
pub(crate) fn record_of(
    alloc: Global,
    graph: &Graph,
    batch: &mut Vec<Formula>,
    said: &[Said<'_>],
    every: &[&Question],
) -> Result<Formula, AllocError>
    requires asks { AllOf (EntryAsks (length (nodes graph.now))) (map plain_said said.now) }
    requires every { AllOf (AsksNodes (length (nodes graph.now))) (plain_questions every.now) }
    requires rising { AreRising None (map (λ one. one.0) (map plain_said said.now)) }
    ensures holding { IfOk result (λ is. HoldsRecords (nodes graph.now) (map plain batch.new.items)
        (IsAsSaid (nodes graph.now) (map plain_said said.now) (plain_questions every.now))
        (plain is)) }
    ensures adds { OnOk result
        (Adds (nodes graph.now) (map plain batch.old.items) (map plain batch.new.items)) }
{
    let named = fields_of(alloc, graph, batch, said)?;
    let rest = node_of(alloc, graph, batch, every)?;
    let named = FieldList::of(named)?;
    Ok(Formula::record(Fields { named, rest }))
}

// Its fields.
fn fields_of(
    alloc: Global,
    graph: &Graph,
    batch: &mut Vec<Formula>,
    said: &[Said<'_>],
) -> Result<Vec<(Name, Field)>, AllocError>
    requires { AllOf (EntryAsks (length (nodes graph.now))) (map plain_said said.now) }
    ensures fields { IfOk result (λ named. AreFieldsOf (nodes graph.now)
        (map plain batch.new.items) (map plain_said said.now) (plain_named named.items)) }
    ensures adds { OnOk result
        (Adds (nodes graph.now) (map plain batch.old.items) (map plain batch.new.items)) }
{
    let mut named = Vec::new(alloc);
    for one in said {
        let node = node_of(alloc, graph, batch, one.questions.as_slice())?;
        let optional = one.optional;
        named.push((one.label.copy()?, Field { optional, node }))?;
    }
    Ok(named)
}

/// The formula of the records that have a value of a question at a label of which nothing is said.
pub(crate) fn other_of(
    alloc: Global,
    graph: &Graph,
    batch: &mut Vec<Formula>,
    said: &[Said<'_>],
    question: &Question,
) -> Result<Formula, AllocError>
    requires asks { AsksNodes (length (nodes graph.now)) question.now }
    requires rising { AreRising None (map (λ one. one.0) (map plain_said said.now)) }
    ensures holding { IfOk result (λ is. HoldsOther (nodes graph.now) (map plain batch.new.items)
        (map plain_said said.now) question.now (plain is)) }
    ensures adds { OnOk result
        (Adds (nodes graph.now) (map plain batch.old.items) (map plain batch.new.items)) }
{
    // The contract of this call says that the graph begins with the built-in nodes.
    graph.knows();
    let rest = outside(alloc, graph, batch, question)?;
    let named = FieldList::of(open_fields(alloc, said)?)?;
    let others = Formula::record(Fields { named, rest });
    Ok(Formula::not(Rc::new(alloc, others)?))
}

// Fields that let anything stand at these labels.
fn open_fields(alloc: Global, said: &[Said<'_>]) -> Result<Vec<(Name, Field)>, AllocError>
    ensures { IfOk result
        (λ named. plain_named named.items ≡ open_fields (map plain_said said.now)) }
{
    let mut named = Vec::new(alloc);
    for one in said {
        let field = Field {
            optional: true,
            node: ANY,
        };
        named.push((one.label.copy()?, field))?;
    }
    Ok(named)
}
