//! Fields of a record that is being made, by rising label.
ghost use Rattle.std.specs.Prelude.{◌≡◌, ◌<◌, ◌≤◌, length, MatchResult, OnOk};
ghost use Rattle.cd_elements.specs.declared.shape.ElementId.{ElementId as AnId};
ghost use Rattle.cd_members.specs.Inner.RecordFields.{put, put_at};

use crate::compare::compare;
use cd_elements::ElementId;
use cd_syntax::name::Name;
use std::alloc::AllocError;
use std::cmp::Ordering;

/// Puts an element at a label, in the place of what is there.
pub(crate) fn put(
    parts: &mut Vec<(Name, ElementId)>,
    label: Name,
    id: ElementId,
) -> Result<(), AllocError>
    ensures { OnOk result (parts.new.items ≡ put label id parts.old.items) }
{
    match place_of(parts.as_slice(), &label) {
        Ok(place) => parts[place] = (label, id),
        Err(place) => parts.insert(place, (label, id))?,
    }
    Ok(())
}

// The place of the field of a label, or the place where it would go.
fn place_of(parts: &[(Name, ElementId)], label: &Name) -> Result<usize, usize>
    ensures within { MatchResult result (λ place. place < length parts.now)
        (λ place. place ≤ length parts.now) }
    ensures put { (id : AnId) → put label.now id parts.now ≡ put_at result label.now id parts.now }
{
    for place in 0..parts.len() {
        match compare(label, &parts[place].0) {
            Ordering::Less => return Err(place),
            Ordering::Equal => return Ok(place),
            Ordering::Greater => {}
        }
    }
    Err(parts.len())
}
