//! Why a program has no types.
ghost use Rattle.std.specs.Prelude.{◌≡◌};
ghost use Rattle.cd_check.specs.Inner.Stopped.{placed_at};

use cd_elements::ElementId;
use cd_operators::misfit::{Side, Stop};
use cd_typing::rule::Rule;
use std::alloc::AllocError;

/// Why a program has no types: a rule that is not met, the place of what does not meet it, and an
/// element that shows this.
#[derive(Clone, Copy)]
pub struct TypeFault {
    /// Where the first token of the operand stands.
    pub at: usize,
    /// The rule.
    pub rule: Rule,
    /// The element.
    pub element: ElementId,
}

/// Why the types of a program are not found.
#[derive(Clone, Copy)]
pub enum CheckError {
    /// It has none.
    IllTyped(TypeFault),
    /// Memory ran out.
    Memory,
}

impl From<AllocError> for CheckError {
    ghost use Rattle.std.specs.Prelude.{◌≡◌};
    ghost use Rattle.cd_check.specs.declared.fault.CheckError.TheVariants.{Memory};

    ghost from_gives = { λ _ e. e ≡ Memory };

    fn from(_error: AllocError) -> CheckError {
        CheckError::Memory
    }
}

/// A fault, as an error.
pub(crate) fn ill_typed(at: usize, rule: Rule, element: ElementId) -> CheckError
    ensures { result ≡ CheckError.IllTyped (record { at = at; rule = rule; element = element }) }
{
    CheckError::IllTyped(TypeFault { at, rule, element })
}

/// What an operator says of its operands, where these stand at such places.
pub(crate) fn placed(stop: Stop, first_at: usize, second_at: usize) -> CheckError
    ensures { result ≡ placed_at stop first_at second_at }
{
    match stop {
        Stop::Memory => CheckError::Memory,
        Stop::Misfit(misfit) => {
            let at = match misfit.side {
                Side::First => first_at,
                Side::Second => second_at,
            };
            ill_typed(at, misfit.rule, misfit.element)
        }
    }
}
