use crate::fault::NameFault;
use cd_syntax::name::Name;
use std::alloc::AllocError;

/// Why the names of what is written are refused.
#[derive(Debug, Drop)]
pub enum NameError {
    /// A fault, the name that it is reported of, and its place.
    Fault {
        /// What is wrong.
        fault: NameFault,
        /// The name.
        name: Name,
        /// Where it stands.
        at: usize,
    },
    /// Memory ran out.
    Memory,
}

impl From<AllocError> for NameError {
    ghost use Rattle.std.specs.Prelude.{◌≡◌};
    ghost use Rattle.cd_resolve.specs.declared.error.NameError.TheVariants.{Memory};

    ghost from_gives = { λ _ e. e ≡ Memory };

    fn from(_error: AllocError) -> NameError {
        NameError::Memory
    }
}
