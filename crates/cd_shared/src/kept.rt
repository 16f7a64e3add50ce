//! Formulas that name classes alone.
ghost use Rattle.std.specs.Prelude.{◌≡◌, map, IsTrue};
ghost use Rattle.cd_graph.specs.PlainFormula.{plain, plain_formulas, plain_named};
ghost use Rattle.cd_shared.specs.Shared.{class_in, renamed_field, renamed_formula};
ghost use Rattle.cd_shared.specs.Shared.{renamed_formulas};

use crate::classes::Classes;
use cd_graph::fields::{Field, Fields};
use cd_graph::{Formula, Formulas};
use cd_sets::node_id::NodeId;
use cd_syntax::name::Name;

/// Whether each node that a formula names is a class of its own.
#[cycle(kept)]
pub(crate) fn is_kept(classes: &Classes, formula: &Formula) -> bool
    ensures { IsTrue result
        → renamed_formula (class_in classes.now) (plain formula.now) ≡ plain formula.now }
{
    match formula {
        Formula::None | Formula::All | Formula::Ints(_) | Formula::Chars(_) | Formula::Atoms(_) =>
            true,
        Formula::Pair(first, second) => is_own(classes, *first) && is_own(classes, *second),
        Formula::Xml(tag, attributes, content) => {
            is_own(classes, *tag) && is_own(classes, *attributes) && is_own(classes, *content)
        }
        Formula::Record(fields) => is_kept_record(classes, fields),
        Formula::Arrow(argument, mapped) => is_own(classes, *argument) && is_own(classes, *mapped),
        Formula::And(formulas) => are_kept(classes, formulas),
        Formula::Or(formulas) => are_kept(classes, formulas),
        Formula::Not(negated) => is_kept(classes, negated),
    }
}

#[cycle(kept)]
fn are_kept(classes: &Classes, formulas: &Formulas) -> bool
    ensures { IsTrue result → renamed_formulas (class_in classes.now)
        (plain_formulas formulas.now) ≡ plain_formulas formulas.now }
{
    for formula in formulas.items() {
        if !is_kept(classes, formula) {
            return false;
        }
    }
    true
}

fn is_kept_record(classes: &Classes, fields: &Fields) -> bool
    ensures named { IsTrue result → map (renamed_field (class_in classes.now))
        (plain_named fields.now.named) ≡ plain_named fields.now.named }
    ensures rest { IsTrue result → class_in classes.now fields.now.rest ≡ fields.now.rest }
{
    are_kept_fields(classes, fields.named.items()) && is_own(classes, fields.rest)
}

fn are_kept_fields(classes: &Classes, fields: &[(Name, Field)]) -> bool
    ensures { IsTrue result → map (renamed_field (class_in classes.now))
        (plain_named fields.now) ≡ plain_named fields.now }
{
    for (_, field) in fields {
        if !is_own(classes, field.node) {
            return false;
        }
    }
    true
}

// Whether a node is a class of its own.
fn is_own(classes: &Classes, id: NodeId) -> bool
    ensures { IsTrue result → class_in classes.now id ≡ id }
{
    classes.class(id) == id
}
