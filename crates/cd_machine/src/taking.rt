//! What is done next where patterns are tried with a value that comes.
ghost use Rattle.std.specs.Prelude.{◌≡◌, ◌<◌, ◌∷◌, [], length, map, IfOk};
ghost use Rattle.cd_syntax.specs.PlainTree.{plain as plain_tree};
ghost use Rattle.cd_program.specs.Expr.{exprs_of};
ghost use Rattle.cd_program.specs.PlainExpr.{plain, plain_branches};
ghost use Rattle.cd_cells.specs.Cells.{thing_at};
ghost use Rattle.cd_cells.specs.Table.{table};
ghost use Rattle.cd_evaluation.specs.Machine.{Called};
ghost use Rattle.cd_evaluation.specs.Runs as runs;
ghost use Rattle.cd_machine.specs.Inner.CodeIn.{code_in, IsPatternIn};
ghost use Rattle.cd_machine.specs.Inner.InOrder.{IsInOrder, IsAfter};
ghost use Rattle.cd_machine.specs.Inner.Known.{BranchesAreKnown, FunctionsAreKnown};
ghost use Rattle.cd_machine.specs.Inner.PlainFrame.{plain_turn, env_at, IsTurn};
ghost use Rattle.cd_machine.specs.Inner.Resuming.{IsEntered, Enters, Chooses, LetsIn};
ghost use Rattle.cd_machine.specs.Inner.Turn.{give};

use crate::branches::{choose, entered, let_in};
use crate::call::apply;
use crate::environments::{EnvId, Environments};
use crate::frame::Frame;
use crate::outcome::Outcome;
use crate::turn::Turn;
use cd_cells::{ValueId, Values};
use cd_code::Code;
use cd_program::expr::{Branches, Expr};
use cd_syntax::type_tree::Tree;
use std::alloc::AllocError;

/// An argument comes to a function.
pub(crate) fn take_argument<'p>(
    code: &mut Code<'p>,
    values: &mut Values,
    environments: &mut Environments,
    function: ValueId,
    arguments: &'p [Expr],
    env: EnvId,
    id: ValueId,
) -> Result<Turn<'p>, AllocError>
    requires known { FunctionsAreKnown (IsPatternIn code.old) (code_in code.old) }
    requires function { function.0 < length (table values.old) }
    requires env { env.0 < length environments.old }
    requires value { id.0 < length (table values.old) }
    requires order { IsInOrder code.old values.old environments.old }
    ensures enters { IfOk result (λ turn. IsEntered (code_in code.old)
        (Enters (code_in code.old) (thing_at (table values.new) function.0)
        (thing_at (table values.new) id.0))
        (Called (exprs_of (map plain arguments.now))
        (env_at values.new environments.new env) ∷ []) (give runs.Stuck)
        (plain_turn values.new environments.new turn)) }
    ensures within { IfOk result (IsTurn values.new environments.new) }
    ensures after { IsAfter code.old values.old environments.old
        code.new values.new environments.new }
{
    let entry = apply(code, values, environments, function, id)?;
    let frame = Frame::Called(arguments, env);
    Ok(entered(entry, Some(frame), Outcome::Stuck))
}

/// A value comes to `match`.
pub(crate) fn take_match<'p>(
    code: &mut Code<'p>,
    values: &mut Values,
    environments: &mut Environments,
    branches: &'p Branches,
    env: EnvId,
    id: ValueId,
) -> Result<Turn<'p>, AllocError>
    requires known { BranchesAreKnown (IsPatternIn code.old) (plain_branches branches.now) }
    requires env { env.0 < length environments.old }
    requires value { id.0 < length (table values.old) }
    requires order { IsInOrder code.old values.old environments.old }
    ensures enters { IfOk result (λ turn. IsEntered (code_in code.old)
        (Chooses (code_in code.old) (plain_branches branches.now)
        (thing_at (table values.new) id.0) (env_at values.new environments.new env))
        [] (give runs.Stuck) (plain_turn values.new environments.new turn)) }
    ensures within { IfOk result (IsTurn values.new environments.new) }
    ensures after { IsAfter code.old values.old environments.old
        code.new values.new environments.new }
{
    let entry = choose(code, values, environments, branches, id, env)?;
    Ok(entered(entry, None, Outcome::Stuck))
}

/// A value that was raised comes to `try`.
pub(crate) fn take_raised<'p>(
    code: &mut Code<'p>,
    values: &mut Values,
    environments: &mut Environments,
    branches: &'p Branches,
    env: EnvId,
    id: ValueId,
) -> Result<Turn<'p>, AllocError>
    requires known { BranchesAreKnown (IsPatternIn code.old) (plain_branches branches.now) }
    requires env { env.0 < length environments.old }
    requires value { id.0 < length (table values.old) }
    requires order { IsInOrder code.old values.old environments.old }
    ensures enters { IfOk result (λ turn. IsEntered (code_in code.old)
        (Chooses (code_in code.old) (plain_branches branches.now)
        (thing_at (table values.new) id.0) (env_at values.new environments.new env))
        [] (give (runs.Raised (thing_at (table values.new) id.0)))
        (plain_turn values.new environments.new turn)) }
    ensures within { IfOk result (IsTurn values.new environments.new) }
    ensures after { IsAfter code.old values.old environments.old
        code.new values.new environments.new }
{
    let entry = choose(code, values, environments, branches, id, env)?;
    Ok(entered(entry, None, Outcome::Raised(id)))
}

/// A value comes to `let`.
pub(crate) fn take_let<'p>(
    code: &mut Code<'p>,
    values: &mut Values,
    environments: &mut Environments,
    pattern: &Tree,
    rest: &'p Expr,
    env: EnvId,
    id: ValueId,
) -> Result<Turn<'p>, AllocError>
    requires known { IsPatternIn code.old (plain_tree pattern.now) }
    requires env { env.0 < length environments.old }
    requires value { id.0 < length (table values.old) }
    requires order { IsInOrder code.old values.old environments.old }
    ensures enters { IfOk result (λ turn. IsEntered (code_in code.old)
        (LetsIn (code_in code.old) (plain_tree pattern.now) (plain rest.now)
        (env_at values.new environments.new env) (thing_at (table values.new) id.0))
        [] (give runs.Stuck) (plain_turn values.new environments.new turn)) }
    ensures within { IfOk result (IsTurn values.new environments.new) }
    ensures after { IsAfter code.old values.old environments.old
        code.new values.new environments.new }
{
    let entry = let_in(code, values, environments, pattern, rest, id, env)?;
    Ok(entered(entry, None, Outcome::Stuck))
}
