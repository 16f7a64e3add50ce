use cd_elements::ElementId;
use cd_typing::rule::Rule;
use std::alloc::AllocError;

/// An operand of an operator.
#[derive(Clone, Copy, PartialEq, Eq)]
pub enum Side {
    /// The left one, or the only one.
    First,
    /// The right one.
    Second,
}

/// An operand that is refused: a rule that it does not meet, and an element of it that shows this.
#[derive(Clone, Copy)]
pub struct Misfit {
    /// Which operand.
    pub side: Side,
    /// The rule.
    pub rule: Rule,
    /// The element.
    pub element: ElementId,
}

/// Why there is no type.
#[derive(Clone, Copy)]
pub enum Stop {
    /// An operand is refused.
    Misfit(Misfit),
    /// Memory ran out.
    Memory,
}

impl From<AllocError> for Stop {
    ghost use Rattle.std.specs.Prelude.{◌≡◌};
    ghost use Rattle.cd_operators.specs.declared.misfit.Stop.TheVariants.{Memory};

    ghost from_gives = { λ _ e. e ≡ Memory };

    fn from(_error: AllocError) -> Stop {
        Stop::Memory
    }
}
