//! What stands against a text.
use cd_resolve::error::NameError;
use cd_resolve::fault::NameFault;
use cd_syntax::fault::{TextError, TextFault};
use cd_syntax::name::Name;
use std::alloc::AllocError;

/// What stands against a text. A place is a byte offset.
#[derive(Debug, Drop)]
pub enum Refusal {
    /// Its first lexical fault, its fault of syntax, or a place that is too deep.
    Text(TextFault),
    /// The naming fault that is reported of it.
    Naming {
        /// What is wrong.
        fault: NameFault,
        /// The name.
        name: Name,
        /// Where it stands.
        at: usize,
    },
}

/// Why a text was not read.
#[derive(Debug, Drop)]
pub enum RefusalError {
    /// This stands against it.
    Refused(Refusal),
    /// Memory ran out.
    Memory,
}

impl From<AllocError> for RefusalError {
    ghost use Rattle.std.specs.Prelude.{◌≡◌};
    ghost use Rattle.cd_replies.specs.declared.refusal.RefusalError.TheVariants.{Memory};

    ghost from_gives = { λ _ e. e ≡ Memory };

    fn from(_error: AllocError) -> RefusalError {
        RefusalError::Memory
    }
}

impl From<TextError> for RefusalError {
    ghost use Rattle.std.specs.Prelude.{◌≡◌};
    ghost use Rattle.cd_replies.specs.Refusals.{of_text};

    ghost from_gives = { λ error e. e ≡ of_text error };

    fn from(error: TextError) -> RefusalError {
        match error {
            TextError::Fault(fault) => RefusalError::Refused(Refusal::Text(fault)),
            TextError::Memory => RefusalError::Memory,
        }
    }
}

impl From<NameError> for RefusalError {
    ghost use Rattle.std.specs.Prelude.{◌≡◌};
    ghost use Rattle.cd_replies.specs.Refusals.{of_names};

    ghost from_gives = { λ error e. e ≡ of_names error };

    fn from(error: NameError) -> RefusalError {
        match error {
            NameError::Fault { fault, name, at } => {
                RefusalError::Refused(Refusal::Naming { fault, name, at })
            }
            NameError::Memory => RefusalError::Memory,
        }
    }
}
