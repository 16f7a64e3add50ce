//! What stands along the right of an element: the first parts of pairs, and the end.
ghost use Rattle.std.specs.Prelude.{◌≡◌, map, IfOk};
ghost use Rattle.std.specs.Option.{option_map};
ghost use Rattle.cd_model.specs.Canonical.{printed};
ghost use Rattle.cd_elements.specs.Table.{element_at};
ghost use Rattle.cd_elements.specs.Elements.{table};
ghost use Rattle.cd_elements.specs.Inner.Tasks.{part_in};
ghost use Rattle.cd_elements.specs.Inner.Looks.{spine_in, letters_of};

use crate::elements::Elements;
use crate::look::{Along, goes_on, letter_at};
use crate::shape::ElementId;
use std::alloc::AllocError;

/// The first parts of the pairs along the right, and what stands at the end, unless it is `nil`.
#[derive(Drop)]
pub(crate) struct Spine {
    pub(crate) firsts: Vec<ElementId>,
    pub(crate) end: Option<ElementId>,
}

/// What stands along the right of an element.
pub(crate) fn spine_of(elements: &Elements, id: ElementId) -> Result<Spine, AllocError>
    ensures { IfOk result (λ spine.
        spine_in (table elements.now) spine
        ≡ (printed (element_at (table elements.now) id)).spine) }
{
    let mut firsts = Vec::new(elements.allocator());
    let mut next = id;
    'along: loop {
        match goes_on(elements, next) {
            Along::Pair(first, second) => {
                firsts.push(first)?;
                next = second;
            }
            Along::Nil => return Ok(Spine { firsts, end: None }),
            Along::End => {
                return Ok(Spine {
                    firsts,
                    end: Some(next),
                });
            }
        }
    }
}

/// The characters that first parts are, if all are characters.
pub(crate) fn letters(
    elements: &Elements,
    firsts: &[ElementId],
) -> Result<Option<Vec<char>>, AllocError>
    ensures { let parts = map (part_in (table elements.now)) firsts.now in
        IfOk result (λ found. option_map (λ characters. characters.items) found
        ≡ letters_of parts) }
{
    let mut characters = Vec::new(elements.allocator());
    for id in firsts {
        match letter_at(elements, *id) {
            Some(c) => characters.push(c)?,
            None => return Ok(None),
        }
    }
    Ok(Some(characters))
}
