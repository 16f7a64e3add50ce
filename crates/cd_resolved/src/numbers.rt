//! Numbers by places.
ghost use Rattle.std.specs.Prelude.{IfOk};
ghost use Rattle.cd_resolved.specs.Inner.Numbers.{AreNumbers};

use cd_cells::Slots;
use std::alloc::{AllocError, Global};

/// The number of each of some places, by the place.
pub(crate) fn numbers_of(alloc: Global, places: &[usize]) -> Result<Slots<usize>, AllocError>
    ensures { IfOk result (λ slots. AreNumbers places.now slots) }
{
    let mut slots = Slots::new(alloc);
    for number in 0..places.len() {
        slots.put(places[number], number)?;
    }
    Ok(slots)
}
