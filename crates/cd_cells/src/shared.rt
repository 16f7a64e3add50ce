//! Which cells a table has of values that it stores once.
ghost use Rattle.std.specs.Prelude.{◌≡◌, [], None};

use crate::cell::ValueId;
use crate::slots::Slots;
use std::alloc::Global;

/// Cells of values without parts. A value whose cell is not known here may have one.
#[derive(Drop)]
pub(crate) struct Shared {
    /// Characters by their codes.
    pub(crate) letters: Slots<ValueId>,
    /// Atoms by the numbers of their names.
    pub(crate) atoms: Slots<ValueId>,
    /// The atom `nil`.
    pub(crate) nil: Option<ValueId>,
    /// The record without fields.
    pub(crate) no_fields: Option<ValueId>,
}

impl Shared {
    /// No cell is known.
    pub(crate) fn new(alloc: Global) -> Shared
        ensures letters { result.letters ≡ [] }
        ensures atoms { result.atoms ≡ [] }
        ensures nil { result.nil ≡ None }
        ensures no_fields { result.no_fields ≡ None }
    {
        Shared {
            letters: Slots::new(alloc),
            atoms: Slots::new(alloc),
            nil: None,
            no_fields: None,
        }
    }
}
