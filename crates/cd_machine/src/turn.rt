//! What the machine does next.
ghost use Rattle.std.specs.Prelude.{◌≡◌};
ghost use Rattle.cd_machine.specs.Inner.CodeTurns.{evaluates, gives, pays};
ghost use Rattle.cd_machine.specs.Inner.CodeTurns.{evaluates_part, pays_for};

use crate::environments::EnvId;
use crate::frame::Frame;
use crate::outcome::Outcome;
use cd_cells::ValueId;
use cd_program::expr::Expr;

/// What is at hand: an expression in an environment, or an outcome.
#[derive(Clone, Copy)]
pub(crate) enum Control<'p> {
    /// The expression is evaluated.
    Evaluating(&'p Expr, EnvId),
    /// The outcome goes to the frame below.
    Returning(Outcome),
}

/// What the machine does next.
#[derive(Clone, Copy)]
pub(crate) struct Turn<'p> {
    /// Whether it takes a unit.
    pub(crate) takes: bool,
    /// What is at hand then.
    pub(crate) control: Control<'p>,
    /// What waits for it, if something does.
    pub(crate) frame: Option<Frame<'p>>,
    /// The first part of a tuple, which waits below.
    pub(crate) first: Option<ValueId>,
}

impl<'p> Turn<'p> {
    /// An expression is evaluated, and this waits for it, if something does.
    #[inline]
    pub(crate) fn evaluate(expr: &'p Expr, env: EnvId, frame: Option<Frame<'p>>) -> Turn<'p>
        ensures { result ≡ evaluates expr.entry env frame.entry }
    {
        Turn {
            takes: false,
            control: Control::Evaluating(expr, env),
            frame,
            first: None,
        }
    }

    /// An outcome is given to the frame below.
    #[inline]
    pub(crate) fn give(outcome: Outcome) -> Turn<'p>
        ensures { result ≡ gives outcome }
    {
        Turn {
            takes: false,
            control: Control::Returning(outcome),
            frame: None,
            first: None,
        }
    }

    /// A unit is taken, and this is at hand then, for this frame, if there is one.
    #[inline]
    pub(crate) fn pay(control: Control<'p>, frame: Option<Frame<'p>>) -> Turn<'p>
        ensures { result ≡ pays control.entry frame.entry }
    {
        Turn {
            takes: true,
            control,
            frame,
            first: None,
        }
    }

    /// The next part of a tuple is evaluated, and this waits for it, if something does. The first
    /// part waits below.
    #[inline]
    pub(crate) fn part(
        expr: &'p Expr,
        env: EnvId,
        frame: Option<Frame<'p>>,
        first: ValueId,
    ) -> Turn<'p>
        ensures { result ≡ evaluates_part expr.entry env frame.entry first }
    {
        Turn {
            takes: false,
            control: Control::Evaluating(expr, env),
            frame,
            first: Some(first),
        }
    }

    /// The same turn, once a unit is taken.
    #[inline]
    pub(crate) fn paid(self) -> Turn<'p>
        ensures { result ≡ pays_for self.entry }
    {
        Turn {
            takes: true,
            control: self.control,
            frame: self.frame,
            first: self.first,
        }
    }
}
