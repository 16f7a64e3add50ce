//! From what a kernel captures to what a pattern binds.
ghost use Rattle.std.specs.Prelude.{◌≡◌, ◌<◌, ◌∷◌, [], ℕ, List, option_map, OnOk, IfSome};
ghost use Rattle.cd_syntax.specs.Name.{Name, IsLabel};
ghost use Rattle.cd_model.specs.AllOf.{AllOf};
ghost use Rattle.cd_model.specs.Thing.{Thing};
ghost use Rattle.cd_cells.specs.Cells.{thing_at, name_at, fields_of, IsPart};
ghost use Rattle.cd_evaluation.specs.Environment.{with_all};
ghost use Rattle.cd_code.specs.Inner.Bindings.{all_named, HaveLabels};
ghost use Rattle.cd_code.specs.Inner.Numbered.{env_by};
ghost use Rattle.cd_taking.specs.Taken.{captured};

use crate::binding::Binding;
use cd_cells::{Part, ValueId};
use cd_taking::Capture;
use std::alloc::AllocError;

// What the variable with a number captures, if it captures something.
fn value_of(captures: &[Capture], variable: usize) -> Option<ValueId>
    ensures value { (table : List Thing) → option_map (λ id. thing_at table id.0) result
        ≡ captured table captures.now variable }
    ensures within { (bound : ℕ) → AllOf (λ capture. capture.value.0 < bound) captures.now
        → IfSome result (λ id. id.0 < bound) }
{
    for capture in captures {
        if capture.variable == variable {
            return Some(capture.value);
        }
    }
    None
}

// Adds what a name captures, if it captures something.
fn put_part(binding: Binding, captures: &[Capture], parts: &mut Vec<Part>) -> Result<(), AllocError>
    ensures env { OnOk result ((names : List Name) (table : List Thing)
        → fields_of names table parts.new.items
        ≡ with_all (fields_of names table parts.old.items)
        (env_by (all_named names (binding ∷ [])) (captured table captures.now))) }
    ensures parts { OnOk result ((names : List Name) (bound : ℕ)
        → AllOf (IsPart names bound) parts.old.items → IsLabel (name_at names binding.label)
        → AllOf (λ capture. capture.value.0 < bound) captures.now
        → AllOf (IsPart names bound) parts.new.items) }
{
    match value_of(captures, binding.variable) {
        Some(id) => {
            parts.push(Part::of(binding.label, id)?)?;
            Ok(())
        }
        None => Ok(()),
    }
}

/// Makes the parts of an environment of what names capture, in this order. A name that captures
/// nothing is left out.
pub(crate) fn put_parts(
    bindings: &[Binding],
    captures: &[Capture],
    parts: &mut Vec<Part>,
) -> Result<(), AllocError>
    ensures env { OnOk result ((names : List Name) (table : List Thing)
        → fields_of names table parts.new.items
        ≡ env_by (all_named names bindings.now) (captured table captures.now)) }
    ensures parts { OnOk result ((names : List Name) (bound : ℕ) → HaveLabels names bindings.now
        → AllOf (λ capture. capture.value.0 < bound) captures.now
        → AllOf (IsPart names bound) parts.new.items) }
{
    parts.clear();
    for binding in bindings {
        put_part(*binding, captures, parts)?;
    }
    Ok(())
}
