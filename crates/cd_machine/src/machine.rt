//! The machine at work.
ghost use Rattle.std.specs.Prelude.{◌≡◌, ◌<◌, ◌∷◌, [], ◌++◌, length, IfOk, OnOk};
ghost use Rattle.cd_model.specs.AllOf.{AllOf};
ghost use Rattle.cd_model.specs.Thing.{NoField};
ghost use Rattle.cd_program.specs.Expr.{NoExpr};
ghost use Rattle.cd_cells.specs.Cells.{thing_at};
ghost use Rattle.cd_cells.specs.Table.{table};
ghost use Rattle.cd_cells.specs.declared.values.Values.{Values as AllValues};
ghost use Rattle.cd_evaluation.specs.Machine.{Argument};
ghost use Rattle.cd_machine.specs.PlainRan.{IsOutcome};
ghost use Rattle.cd_machine.specs.Inner.CodeIn.{code_in};
ghost use Rattle.cd_machine.specs.Inner.InOrder.{IsAfter};
ghost use Rattle.cd_machine.specs.Inner.PlainFrame.{plain_control, plain_frames, pushed_by};
ghost use Rattle.cd_machine.specs.Inner.PlainFrame.{IsFrame};
ghost use Rattle.cd_machine.specs.Inner.Running.{IsRunning, TurnsOrEnds, Stops, RunsTo};

use crate::at_hand::operator_at_hand;
use crate::enter::enter;
use crate::environments::{EnvId, Environments};
use crate::frame::Frame;
use crate::outcome::{Outcome, Ran};
use crate::resume::resume;
use crate::stack::Stack;
use crate::turn::{Control, Turn};
use cd_cells::{Part, ValueId, Values};
use cd_code::Code;
use std::alloc::{AllocError, Global};

/// The machine: what waits, and the environments.
#[derive(Drop)]
pub(crate) struct Machine<'p> {
    pub(crate) alloc: Global,
    pub(crate) stack: Stack<Frame<'p>>,
    pub(crate) environments: Environments,
    // For names that a closure sees.
    pub(crate) parts: Vec<Part>,
}

/// What comes next.
#[derive(Clone, Copy)]
pub(crate) enum Next<'p> {
    /// Nothing waits for this outcome.
    End(Outcome),
    /// A turn.
    Turn(Turn<'p>),
}

impl<'p> Machine<'p> {
    /// A function waits for its argument.
    pub(crate) fn of(alloc: Global, function: ValueId) -> Result<Machine<'p>, AllocError>
        ensures environments { IfOk result (λ machine. machine.environments ≡ [] ∷ []) }
        ensures stack { IfOk result (λ machine. (all : AllValues)
            → plain_frames all machine.environments machine.stack
            ≡ Argument (thing_at (table all) function.0) NoExpr NoField ∷ []) }
        ensures within { IfOk result (λ machine. (all : AllValues)
            → function.0 < length (table all)
            → AllOf (IsFrame all machine.environments) machine.stack) }
    {
        let mut stack = Stack::new(alloc);
        stack.push(Frame::Argument(function, &[], EnvId(0)))?;
        Ok(Machine {
            alloc,
            stack,
            environments: Environments::new(alloc),
            parts: Vec::new(alloc),
        })
    }

    // The next turn, if something waits.
    fn turn(
        &mut self,
        code: &mut Code<'p>,
        values: &mut Values,
        control: Control<'p>,
    ) -> Result<Next<'p>, AllocError>
        requires { IsRunning code.old values.old self.old.environments control self.old.stack }
        ensures turns { IfOk result (TurnsOrEnds code.new values.new self.new.environments
            (plain_control values.old self.old.environments control.entry)
            (plain_frames values.old self.old.environments self.old.stack) self.new.stack) }
        ensures after { IsAfter code.old values.old self.old.environments
            code.new values.new self.new.environments }
    {
        match control {
            Control::Evaluating(expr, env) => {
                let environments = &self.environments;
                if let Some(turn) = operator_at_hand(code, values, environments, expr, env)? {
                    return Ok(Next::Turn(turn));
                }
                let turn = enter(code, values, &self.environments, &mut self.parts, expr, env)?;
                Ok(Next::Turn(turn))
            }
            Control::Returning(outcome) => match self.stack.pop() {
                None => Ok(Next::End(outcome)),
                Some(frame) => {
                    let turn = resume(
                        self.alloc,
                        code,
                        values,
                        &mut self.environments,
                        frame,
                        outcome,
                    )?;
                    Ok(Next::Turn(turn))
                }
            },
        }
    }

    // What waits for what a turn comes to is put on the stack, and what is at hand then is given.
    fn put(&mut self, turn: Turn<'p>) -> Result<Control<'p>, AllocError>
        ensures control { IfOk result (λ control. control ≡ turn.entry.control) }
        ensures stack { OnOk result (self.new.stack ≡ pushed_by turn.entry ++ self.old.stack) }
        ensures environments { self.new.environments ≡ self.old.environments }
    {
        if let Some(first) = turn.first {
            self.stack.push(Frame::Second(first))?;
        }
        if let Some(frame) = turn.frame {
            self.stack.push(frame)?;
        }
        Ok(turn.control)
    }

    // Goes on until a unit is wanted, or nothing waits.
    fn to_unit(
        &mut self,
        code: &mut Code<'p>,
        values: &mut Values,
        control: Control<'p>,
    ) -> Result<Next<'p>, AllocError>
        requires { IsRunning code.old values.old self.old.environments control self.old.stack }
        ensures stops { IfOk result (Stops code.new values.new self.new.environments
            (plain_control values.old self.old.environments control.entry)
            (plain_frames values.old self.old.environments self.old.stack) self.new.stack) }
        ensures after { IsAfter code.old values.old self.old.environments
            code.new values.new self.new.environments }
    {
        let mut control = control;
        'free: loop {
            match self.turn(code, values, control)? {
                Next::End(outcome) => return Ok(Next::End(outcome)),
                Next::Turn(turn) => {
                    if turn.takes {
                        return Ok(Next::Turn(turn));
                    }
                    control = self.put(turn)?;
                }
            }
        }
    }

    /// Goes on to the end, with so many units.
    pub(crate) fn go(
        &mut self,
        code: &mut Code<'p>,
        values: &mut Values,
        control: Control<'p>,
        units: u64,
    ) -> Result<Ran, AllocError>
        requires { IsRunning code.old values.old self.old.environments control self.old.stack }
        ensures ran { IfOk result (RunsTo (code_in code.old) (table values.new) units
            (plain_control values.old self.old.environments control.entry)
            (plain_frames values.old self.old.environments self.old.stack)) }
        ensures within { IfOk result
            (λ ran. IsOutcome (length (table values.new)) ran.outcome) }
        ensures after { IsAfter code.old values.old self.old.environments
            code.new values.new self.new.environments }
    {
        let mut control = control;
        let mut units = units;
        'units: loop {
            match self.to_unit(code, values, control)? {
                Next::End(outcome) => {
                    return Ok(Ran {
                        outcome,
                        left: units,
                    });
                }
                Next::Turn(turn) => {
                    if units == 0 {
                        return Ok(Ran {
                            outcome: Outcome::Spent,
                            left: 0,
                        });
                    }
                    units -= 1;
                    control = self.put(turn)?;
                }
            }
        }
    }
}
