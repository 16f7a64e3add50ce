//! `map` and `transform`, from one item of a sequence to the next.
ghost use Rattle.std.specs.Prelude.{◌<◌, ◌∷◌, length, IfOk};
ghost use Rattle.cd_matching.specs.Sequences.{items};
ghost use Rattle.cd_program.specs.PlainExpr.{plain_branches};
ghost use Rattle.cd_cells.specs.Cells.{thing_at};
ghost use Rattle.cd_cells.specs.Table.{table};
ghost use Rattle.cd_machine.specs.Inner.CodeIn.{code_in, IsPatternIn};
ghost use Rattle.cd_machine.specs.Inner.InOrder.{IsInOrder, IsAfter};
ghost use Rattle.cd_machine.specs.Inner.Known.{BranchesAreKnown};
ghost use Rattle.cd_machine.specs.Inner.PlainFrame.{plain_turn, env_at, items_at, IsTurn};
ghost use Rattle.cd_machine.specs.Inner.Resuming.{Maps, MapsOn};

use crate::branches::{choose, entered};
use crate::environments::{EnvId, Environments};
use crate::frame::Frame;
use crate::outcome::Outcome;
use crate::turn::Turn;
use cd_cells::{ValueId, Values};
use cd_code::Code;
use cd_operations::pairs::pair_at;
use cd_operations::sequences::{in_order, is_sequence};
use cd_program::expr::Branches;
use std::alloc::AllocError;

/// The first item of the sequence of `map`.
pub(crate) fn map<'p>(
    code: &mut Code<'p>,
    values: &mut Values,
    environments: &mut Environments,
    branches: &'p Branches,
    env: EnvId,
    id: ValueId,
) -> Result<Turn<'p>, AllocError>
    requires known { BranchesAreKnown (IsPatternIn code.old) (plain_branches branches.now) }
    requires env { env.0 < length environments.old }
    requires value { id.0 < length (table values.old) }
    requires order { IsInOrder code.old values.old environments.old }
    ensures maps { IfOk result (λ turn. Maps (code_in code.old) (plain_branches branches.now)
        (env_at values.new environments.new env) (items (thing_at (table values.new) id.0))
        (plain_turn values.new environments.new turn)) }
    ensures within { IfOk result (IsTurn values.new environments.new) }
    ensures after { IsAfter code.old values.old environments.old
        code.new values.new environments.new }
{
    if !is_sequence(values, id) {
        return Ok(Turn::give(Outcome::Stuck));
    }
    let none = values.nil()?;
    Ok(map_on(code, values, environments, branches, env, none, id)?)
}

/// The next item of the sequence, after this result of the last one: results that are done, and
/// items that are left.
pub(crate) fn map_next<'p>(
    code: &mut Code<'p>,
    values: &mut Values,
    environments: &mut Environments,
    branches: &'p Branches,
    env: EnvId,
    parts: (ValueId, ValueId),
    id: ValueId,
) -> Result<Turn<'p>, AllocError>
    requires known { BranchesAreKnown (IsPatternIn code.old) (plain_branches branches.now) }
    requires env { env.0 < length environments.old }
    requires done { parts.0.0 < length (table values.old) }
    requires left { parts.1.0 < length (table values.old) }
    requires value { id.0 < length (table values.old) }
    requires order { IsInOrder code.old values.old environments.old }
    ensures maps { IfOk result (λ turn. MapsOn (code_in code.old) (plain_branches branches.now)
        (env_at values.new environments.new env)
        (thing_at (table values.new) id.0 ∷ items_at values.new environments.new parts.0)
        (items_at values.new environments.new parts.1)
        (plain_turn values.new environments.new turn)) }
    ensures within { IfOk result (IsTurn values.new environments.new) }
    ensures after { IsAfter code.old values.old environments.old
        code.new values.new environments.new }
{
    let (done, left) = parts;
    let done = values.pair(id, done)?;
    Ok(map_on(code, values, environments, branches, env, done, left)?)
}

// The next of the items that are left, after these results.
fn map_on<'p>(
    code: &mut Code<'p>,
    values: &mut Values,
    environments: &mut Environments,
    branches: &'p Branches,
    env: EnvId,
    done: ValueId,
    left: ValueId,
) -> Result<Turn<'p>, AllocError>
    requires known { BranchesAreKnown (IsPatternIn code.old) (plain_branches branches.now) }
    requires env { env.0 < length environments.old }
    requires done { done.0 < length (table values.old) }
    requires left { left.0 < length (table values.old) }
    requires order { IsInOrder code.old values.old environments.old }
    ensures maps { IfOk result (λ turn. MapsOn (code_in code.old) (plain_branches branches.now)
        (env_at values.new environments.new env) (items_at values.new environments.new done)
        (items_at values.new environments.new left)
        (plain_turn values.new environments.new turn)) }
    ensures within { IfOk result (IsTurn values.new environments.new) }
    ensures after { IsAfter code.old values.old environments.old
        code.new values.new environments.new }
{
    match pair_at(values, left) {
        None => Ok(Turn::give(Outcome::Done(in_order(values, done)?))),
        Some((one, rest)) => {
            let entry = choose(code, values, environments, branches, one, env)?;
            let frame = Frame::Mapping(branches, env, done, rest);
            Ok(entered(entry, Some(frame), Outcome::Stuck))
        }
    }
}
