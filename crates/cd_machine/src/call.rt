//! The application of a function.
ghost use Rattle.std.specs.Prelude.{◌≡◌, ◌<◌, length, option_map, IfOk};
ghost use Rattle.cd_program.specs.PlainExpr.{plain_branches, plain_function};
ghost use Rattle.cd_program.specs.WellMade.{IsWellMadeName};
ghost use Rattle.cd_cells.specs.Cells.{thing_at};
ghost use Rattle.cd_cells.specs.Table.{table};
ghost use Rattle.cd_evaluation.specs.Environment.{with_name};
ghost use Rattle.cd_machine.specs.Inner.CodeIn.{code_in, IsPatternIn};
ghost use Rattle.cd_machine.specs.Inner.Entries.{plain_choice, IsEntry};
ghost use Rattle.cd_machine.specs.Inner.InOrder.{IsInOrder, IsAfter};
ghost use Rattle.cd_machine.specs.Inner.Known.{BranchesAreKnown, FunctionIsKnown};
ghost use Rattle.cd_machine.specs.Inner.Known.{FunctionsAreKnown};
ghost use Rattle.cd_machine.specs.Inner.PlainFrame.{env_at};
ghost use Rattle.cd_machine.specs.Inner.Resuming.{Chooses, Enters, EntersTree};

use crate::branches::{Entry, choose};
use crate::environments::{EnvId, Environments};
use cd_cells::{Look, Part, ValueId, Values};
use cd_code::Code;
use cd_program::expr::{Branches, FunctionTree};
use cd_syntax::name::Name;
use std::alloc::AllocError;

/// The body of the branch of a function that takes a value, where a value is applied to it.
pub(crate) fn apply<'p>(
    code: &mut Code<'p>,
    values: &mut Values,
    environments: &mut Environments,
    function: ValueId,
    id: ValueId,
) -> Result<Option<Entry<'p>>, AllocError>
    requires known { FunctionsAreKnown (IsPatternIn code.old) (code_in code.old) }
    requires function { function.0 < length (table values.old) }
    requires value { id.0 < length (table values.old) }
    requires order { IsInOrder code.old values.old environments.old }
    ensures enters { IfOk result (λ entry. Enters (code_in code.old)
        (thing_at (table values.new) function.0) (thing_at (table values.new) id.0)
        (plain_choice values.new environments.new entry)) }
    ensures within { IfOk result (IsEntry environments.new) }
    ensures after { IsAfter code.old values.old environments.old
        code.new values.new environments.new }
{
    let Look::Closure(at, parts) = values.look(function) else {
        return Ok(None);
    };
    let Some(tree) = tree_at(code, at) else {
        return Ok(None);
    };
    let inner = environments.of_parts(parts)?;
    let entry = enter_function(code, values, environments, tree, function, inner, id)?;
    Ok(entry)
}

// The function that begins at a place.
#[tactic(auto, unfolding(crate::specs::Inner::CodeIn::code_in))]
fn tree_at<'p>(code: &Code<'p>, at: usize) -> Option<&'p FunctionTree>
    ensures { option_map (λ f. plain_function f.now) result ≡ (code_in code.now).function at }
{
    code.function(at)
}

// The body of the branch that takes a value, of a function that sees this environment.
fn enter_function<'p>(
    code: &mut Code<'p>,
    values: &mut Values,
    environments: &mut Environments,
    tree: &'p FunctionTree,
    function: ValueId,
    inner: EnvId,
    id: ValueId,
) -> Result<Option<Entry<'p>>, AllocError>
    requires known { FunctionIsKnown (IsPatternIn code.old) (plain_function tree.now) }
    requires function { function.0 < length (table values.old) }
    requires value { id.0 < length (table values.old) }
    requires inner { inner.0 < length environments.old }
    requires order { IsInOrder code.old values.old environments.old }
    ensures enters { IfOk result (λ entry. EntersTree (code_in code.old)
        (plain_function tree.now) (thing_at (table values.new) function.0)
        (env_at values.new environments.new inner) (thing_at (table values.new) id.0)
        (plain_choice values.new environments.new entry)) }
    ensures within { IfOk result (IsEntry environments.new) }
    ensures after { IsAfter code.old values.old environments.old
        code.new values.new environments.new }
{
    enter_branches(
        code,
        values,
        environments,
        &tree.name,
        &tree.branches,
        (function, inner),
        id,
    )
}

// The body of the branch that takes a value, where the branches see the function by this name, in
// this environment.
fn enter_branches<'p>(
    code: &mut Code<'p>,
    values: &mut Values,
    environments: &mut Environments,
    name: &Option<Name>,
    branches: &'p Branches,
    function: (ValueId, EnvId),
    id: ValueId,
) -> Result<Option<Entry<'p>>, AllocError>
    requires name { IsWellMadeName name.now }
    requires known { BranchesAreKnown (IsPatternIn code.old) (plain_branches branches.now) }
    requires function { function.0.0 < length (table values.old) }
    requires inner { function.1.0 < length environments.old }
    requires value { id.0 < length (table values.old) }
    requires order { IsInOrder code.old values.old environments.old }
    ensures chooses { IfOk result (λ entry. Chooses (code_in code.old)
        (plain_branches branches.now) (thing_at (table values.new) id.0)
        (with_name name.now (thing_at (table values.new) function.0.0)
        (env_at values.new environments.new function.1))
        (plain_choice values.new environments.new entry)) }
    ensures within { IfOk result (IsEntry environments.new) }
    ensures after { IsAfter code.old values.old environments.old
        code.new values.new environments.new }
{
    let (function, inner) = function;
    let env = with_own_name(code, values, environments, name, function, inner)?;
    let entry = choose(code, values, environments, branches, id, env)?;
    Ok(entry)
}

// The environment with the function's own name, if it has one.
fn with_own_name(
    code: &Code<'_>,
    values: &mut Values,
    environments: &mut Environments,
    name: &Option<Name>,
    function: ValueId,
    inner: EnvId,
) -> Result<EnvId, AllocError>
    requires known { IsWellMadeName name.now }
    requires function { function.0 < length (table values.old) }
    requires inner { inner.0 < length environments.old }
    requires order { IsInOrder code.now values.old environments.old }
    ensures named { IfOk result (λ env. env_at values.new environments.new env
        ≡ with_name name.now (thing_at (table values.new) function.0)
        (env_at values.new environments.new inner)) }
    ensures within { IfOk result (λ env. env.0 < length environments.new) }
    ensures after { IsAfter code.now values.old environments.old
        code.now values.new environments.new }
{
    let _code = code;
    match name {
        None => Ok(inner),
        Some(name) => {
            let label = values.label(name.as_str())?;
            environments.add(Part::of(label, function)?, inner)
        }
    }
}
