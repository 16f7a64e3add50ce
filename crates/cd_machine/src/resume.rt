//! What is done next where an outcome comes to what waits for it.
ghost use Rattle.std.specs.Prelude.{◌≡◌, ◌<◌, length, IfOk};
ghost use Rattle.cd_cells.specs.Cells.{thing_at};
ghost use Rattle.cd_cells.specs.Table.{table};
ghost use Rattle.cd_machine.specs.Inner.CodeIn.{code_in, IsPatternIn};
ghost use Rattle.cd_machine.specs.Inner.InOrder.{IsInOrder, IsAfter};
ghost use Rattle.cd_machine.specs.Inner.Known.{FrameIsKnown, FunctionsAreKnown};
ghost use Rattle.cd_machine.specs.Inner.PlainFrame.{plain_turn, plain_frame, IsFrame, IsTurn};
ghost use Rattle.cd_machine.specs.Inner.Resuming.{Resumes, Catches, ComesTo};
ghost use Rattle.cd_machine.specs.PlainRan.{plain_outcome, IsOutcome};

use crate::environments::Environments;
use crate::frame::Frame;
use crate::maps::{map, map_next};
use crate::operands::next_tail;
use crate::outcome::Outcome;
use crate::outcomes::{filled, operated, paired, worded};
use crate::parts::{ask, next_argument, next_part, put_field, put_item, splice};
use crate::taking::{take_argument, take_let, take_match, take_raised};
use crate::transforms::{sift, sift_next};
use crate::turn::{Control, Turn};
use cd_cells::{ValueId, Values};
use cd_code::Code;
use std::alloc::{AllocError, Global};

/// The next turn, where an outcome comes to a frame.
pub(crate) fn resume<'p>(
    alloc: Global,
    code: &mut Code<'p>,
    values: &mut Values,
    environments: &mut Environments,
    frame: Frame<'p>,
    outcome: Outcome,
) -> Result<Turn<'p>, AllocError>
    requires known { FrameIsKnown (IsPatternIn code.old)
        (plain_frame values.old environments.old frame) }
    requires functions { FunctionsAreKnown (IsPatternIn code.old) (code_in code.old) }
    requires frame { IsFrame values.old environments.old frame }
    requires outcome { IsOutcome (length (table values.old)) outcome }
    requires order { IsInOrder code.old values.old environments.old }
    ensures comes { IfOk result (λ turn. ComesTo (code_in code.old)
        (plain_frame values.new environments.new frame.entry)
        (plain_outcome (table values.new) outcome)
        (plain_turn values.new environments.new turn)) }
    ensures within { IfOk result (IsTurn values.new environments.new) }
    ensures after { IsAfter code.old values.old environments.old
        code.new values.new environments.new }
{
    match outcome {
        Outcome::Done(id) => resume_with(alloc, code, values, environments, frame, id),
        Outcome::Raised(id) => catch(code, values, environments, frame, id),
        outcome => Ok(Turn::give(outcome)),
    }
}

// Where a value comes to a frame.
#[tactic(auto, using(crate::proofs::Afterwards::after_values, crate::proofs::Afterwards::after_same))]
fn resume_with<'p>(
    alloc: Global,
    code: &mut Code<'p>,
    values: &mut Values,
    environments: &mut Environments,
    frame: Frame<'p>,
    id: ValueId,
) -> Result<Turn<'p>, AllocError>
    requires known { FrameIsKnown (IsPatternIn code.old)
        (plain_frame values.old environments.old frame) }
    requires functions { FunctionsAreKnown (IsPatternIn code.old) (code_in code.old) }
    requires frame { IsFrame values.old environments.old frame }
    requires value { id.0 < length (table values.old) }
    requires order { IsInOrder code.old values.old environments.old }
    ensures resumes { IfOk result (λ turn. Resumes (code_in code.old)
        (plain_frame values.new environments.new frame.entry)
        (thing_at (table values.new) id.0)
        (plain_turn values.new environments.new turn)) }
    ensures within { IfOk result (IsTurn values.new environments.new) }
    ensures after { IsAfter code.old values.old environments.old
        code.new values.new environments.new }
{
    match frame {
        Frame::First(next, rest, env) => Ok(next_part(values, next, rest, env, id)),
        Frame::Second(first) => Ok(Turn::give(paired(values, first, id)?)),
        Frame::Iteming(done, rest, env) => Ok(put_item(values, done, rest, env, id)?),
        Frame::Splicing(done, rest, env) => Ok(splice(values, done, rest, env, id)?),
        Frame::Fielding(done, label, rest, env) => {
            Ok(put_field(alloc, values, done, label, rest, env, id)?)
        }
        Frame::Tagging(attributes, content, env) => {
            let frame = Frame::Attributing(id, content, env);
            Ok(Turn::evaluate(attributes, env, Some(frame)))
        }
        Frame::Attributing(tag, content, env) => {
            Ok(Turn::evaluate(content, env, Some(Frame::Filling(tag, id))))
        }
        Frame::Filling(tag, attributes) => Ok(Turn::give(filled(values, tag, attributes, id)?)),
        Frame::Called(arguments, env) => Ok(next_argument(values, arguments, env, id)),
        Frame::Argument(function, arguments, env) => {
            take_argument(code, values, environments, function, arguments, env, id)
        }
        Frame::Matching(branches, env) => {
            take_match(code, values, environments, branches, env, id)
        }
        Frame::Trying(_, _) => Ok(Turn::give(Outcome::Done(id))),
        Frame::Letting(pattern, rest, env) => {
            take_let(code, values, environments, pattern, rest, env, id)
        }
        Frame::Asking(then_one, else_one, env) => Ok(ask(values, then_one, else_one, env, id)),
        Frame::Wording(word) => {
            let outcome = worded(alloc, values, word, id)?;
            Ok(Turn::pay(Control::Returning(outcome), None))
        }
        Frame::Tailing(tails, env) => Ok(next_tail(alloc, values, tails, env, id)?),
        Frame::Operating(op, left, rest, env) => {
            let outcome = operated(alloc, values, op, left, id)?;
            let frame = Frame::Tailing(rest, env);
            Ok(Turn::pay(Control::Returning(outcome), Some(frame)))
        }
        Frame::Listing(branches, env) => map(code, values, environments, branches, env, id),
        Frame::Mapping(branches, env, done, left) => {
            map_next(code, values, environments, branches, env, (done, left), id)
        }
        Frame::Sifting(branches, env) => sift(code, values, environments, branches, env, id),
        Frame::Joining(branches, env, done, left) => {
            sift_next(code, values, environments, branches, env, (done, left), id)
        }
    }
}

// Where a value that was raised comes to a frame.
#[tactic(auto, using(crate::proofs::Afterwards::after_same))]
fn catch<'p>(
    code: &mut Code<'p>,
    values: &mut Values,
    environments: &mut Environments,
    frame: Frame<'p>,
    id: ValueId,
) -> Result<Turn<'p>, AllocError>
    requires known { FrameIsKnown (IsPatternIn code.old)
        (plain_frame values.old environments.old frame) }
    requires frame { IsFrame values.old environments.old frame }
    requires value { id.0 < length (table values.old) }
    requires order { IsInOrder code.old values.old environments.old }
    ensures catches { IfOk result (λ turn. Catches (code_in code.old)
        (plain_frame values.new environments.new frame.entry)
        (thing_at (table values.new) id.0)
        (plain_turn values.new environments.new turn)) }
    ensures within { IfOk result (IsTurn values.new environments.new) }
    ensures after { IsAfter code.old values.old environments.old
        code.new values.new environments.new }
{
    match frame {
        Frame::Trying(branches, env) => {
            take_raised(code, values, environments, branches, env, id)
        }
        _ => Ok(Turn::give(Outcome::Raised(id))),
    }
}
