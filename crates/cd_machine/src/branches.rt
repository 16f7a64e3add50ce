//! The branch that takes a value.
ghost use Rattle.std.specs.Prelude.{◌≡◌, ◌<◌, length, IfOk, IfSome};
ghost use Rattle.cd_syntax.specs.PlainTree.{plain as plain_tree};
ghost use Rattle.cd_program.specs.PlainExpr.{plain, plain_branch, plain_branches};
ghost use Rattle.cd_cells.specs.Cells.{thing_at};
ghost use Rattle.cd_cells.specs.Table.{table};
ghost use Rattle.cd_machine.specs.Inner.CodeIn.{code_in, IsPatternIn};
ghost use Rattle.cd_machine.specs.Inner.Entries.{plain_choice, IsEntry, enters, enters_or};
ghost use Rattle.cd_machine.specs.Inner.Entries.{Takes};
ghost use Rattle.cd_machine.specs.Inner.InOrder.{IsInOrder, IsAfter};
ghost use Rattle.cd_machine.specs.Inner.Known.{BranchesAreKnown};
ghost use Rattle.cd_machine.specs.Inner.PlainFrame.{env_at};
ghost use Rattle.cd_machine.specs.Inner.Resuming.{Chooses, LetsIn};

use crate::environments::{EnvId, Environments};
use crate::frame::Frame;
use crate::outcome::Outcome;
use crate::turn::{Control, Turn};
use cd_cells::{ValueId, Values};
use cd_code::Code;
use cd_program::expr::{Branch, Branches, Expr};
use cd_syntax::type_tree::Tree;
use std::alloc::AllocError;

/// The body of a branch, and the environment that it sees.
#[derive(Clone, Copy)]
pub(crate) struct Entry<'p> {
    pub(crate) body: &'p Expr,
    pub(crate) env: EnvId,
}

/// The body of the first branch that takes a value.
pub(crate) fn choose<'p>(
    code: &mut Code<'p>,
    values: &mut Values,
    environments: &mut Environments,
    branches: &'p Branches,
    id: ValueId,
    env: EnvId,
) -> Result<Option<Entry<'p>>, AllocError>
    requires known { BranchesAreKnown (IsPatternIn code.old)
        (plain_branches branches.now) }
    requires value { id.0 < length (table values.old) }
    requires env { env.0 < length environments.old }
    requires order { IsInOrder code.old values.old environments.old }
    ensures chooses { IfOk result (λ entry. Chooses (code_in code.old)
        (plain_branches branches.now) (thing_at (table values.new) id.0)
        (env_at values.new environments.new env)
        (plain_choice values.new environments.new entry)) }
    ensures within { IfOk result (IsEntry environments.new) }
    ensures after { IsAfter code.old values.old environments.old
        code.new values.new environments.new }
{
    for branch in branches.items() {
        if let Some(entry) = try_branch(code, values, environments, branch, id, env)? {
            return Ok(Some(entry));
        }
    }
    Ok(None)
}

// The body of a branch, if its pattern takes the value.
fn try_branch<'p>(
    code: &mut Code<'p>,
    values: &mut Values,
    environments: &mut Environments,
    branch: &'p Branch,
    id: ValueId,
    env: EnvId,
) -> Result<Option<Entry<'p>>, AllocError>
    requires known { IsPatternIn code.old (plain_branch branch.now).pattern }
    requires value { id.0 < length (table values.old) }
    requires env { env.0 < length environments.old }
    requires order { IsInOrder code.old values.old environments.old }
    ensures lets { IfOk result (λ entry. LetsIn (code_in code.old)
        (plain_branch branch.now).pattern (plain_branch branch.now).body
        (env_at values.new environments.new env) (thing_at (table values.old) id.0)
        (plain_choice values.new environments.new entry)) }
    ensures within { IfOk result (IsEntry environments.new) }
    ensures after { IsAfter code.old values.old environments.old
        code.new values.new environments.new }
{
    let_in(
        code,
        values,
        environments,
        &branch.pattern,
        &branch.body,
        id,
        env,
    )
}

/// The body of `let`, if its pattern takes the value.
pub(crate) fn let_in<'p>(
    code: &mut Code<'p>,
    values: &mut Values,
    environments: &mut Environments,
    pattern: &Tree,
    body: &'p Expr,
    id: ValueId,
    env: EnvId,
) -> Result<Option<Entry<'p>>, AllocError>
    requires known { IsPatternIn code.old (plain_tree pattern.now) }
    requires value { id.0 < length (table values.old) }
    requires env { env.0 < length environments.old }
    requires order { IsInOrder code.old values.old environments.old }
    ensures lets { IfOk result (λ entry. LetsIn (code_in code.old) (plain_tree pattern.now)
        (plain body.now) (env_at values.new environments.new env)
        (thing_at (table values.old) id.0)
        (plain_choice values.new environments.new entry)) }
    ensures within { IfOk result (IsEntry environments.new) }
    ensures after { IsAfter code.old values.old environments.old
        code.new values.new environments.new }
{
    match try_pattern(code, values, environments, pattern, id, env)? {
        Some(env) => Ok(Some(Entry { body, env })),
        None => Ok(None),
    }
}

// The environment of what a pattern captures of a value, before another one, if it takes the value.
#[tactic(auto, unfolding(crate::specs::Inner::CodeIn::code_in, crate::specs::Inner::CodeIn::IsPatternIn))]
fn try_pattern(
    code: &mut Code<'_>,
    values: &mut Values,
    environments: &mut Environments,
    pattern: &Tree,
    id: ValueId,
    env: EnvId,
) -> Result<Option<EnvId>, AllocError>
    requires known { IsPatternIn code.old (plain_tree pattern.now) }
    requires value { id.0 < length (table values.old) }
    requires env { env.0 < length environments.old }
    requires order { IsInOrder code.old values.old environments.old }
    ensures takes { IfOk result (Takes values.new environments.new (code_in code.old)
        (plain_tree pattern.now) (thing_at (table values.old) id.0)
        (env_at values.new environments.new env)) }
    ensures within { IfOk result (λ found. IfSome found (λ e. e.0 < length environments.new)) }
    ensures after { IsAfter code.old values.old environments.old
        code.new values.new environments.new }
{
    if !code.take(values, pattern, id)? {
        return Ok(None);
    }
    Ok(Some(environments.add_all(code.captured(), env)?))
}

/// The turn to the body of a branch, for this frame, or to another outcome. It takes a unit.
#[inline]
pub(crate) fn entered<'p>(
    entry: Option<Entry<'p>>,
    frame: Option<Frame<'p>>,
    otherwise: Outcome,
) -> Turn<'p>
    ensures { result ≡ enters entry.entry frame.entry otherwise }
{
    match entry {
        Some(entry) => Turn::pay(Control::Evaluating(entry.body, entry.env), frame),
        None => Turn::pay(Control::Returning(otherwise), None),
    }
}

/// The same, where the other outcome goes to the frame too.
#[inline]
pub(crate) fn entered_or<'p>(
    entry: Option<Entry<'p>>,
    frame: Frame<'p>,
    otherwise: Outcome,
) -> Turn<'p>
    ensures { result ≡ enters_or entry.entry frame.entry otherwise }
{
    match entry {
        Some(entry) => Turn::pay(Control::Evaluating(entry.body, entry.env), Some(frame)),
        None => Turn::pay(Control::Returning(otherwise), Some(frame)),
    }
}
