//! The answers of the queries.
ghost use Rattle.std.specs.Prelude.{◌≡◌, ◌≤◌, IfOk, OnOk};
ghost use Rattle.cd_syntax.specs.PlainTree.{plain, plain_declarations};
ghost use Rattle.cd_syntax.specs.TypeTree.{NoDeclaration};
ghost use Rattle.cd_syntax.specs.WellMade.{IsWellMade};
ghost use Rattle.cd_model.specs.StandsFor.{StandsFor};
ghost use Rattle.cd_resolve.specs.Faults.{Fault, IsFaultOfType};
ghost use Rattle.cd_resolve.specs.Named.{declared_by};
ghost use Rattle.cd_empty.specs.Seen.{graph_of};
ghost use Rattle.cd_replies.specs.Texts.{type_of};
ghost use Rattle.cd_running.specs.Queries.{Answered};
ghost use Rattle.cd_running.specs.Inner.Asking.{query_type, AnswersQuery, Keeps};

use crate::workload::query::query;
use cd_empty::World;
use cd_replies::naming::declare;
use cd_replies::refusal::RefusalError;
use cd_resolve::error::NameError;
use cd_resolve::{Names, resolve_type};
use cd_sets::node_id::NodeId;
use cd_syntax::type_tree::{Declarations, Tree};
use cd_verdicts::Verdict;
use std::alloc::{AllocError, Global};

/// How many of the first queries are answered with yes: whether `[(0--i)*]` is within
/// `[(0--99)*]`, for each `i` below `size`.
///
/// # Errors
///
/// Want of memory.
pub(crate) fn count_yes(alloc: Global, size: u32) -> Result<u32, AllocError>
    requires most { size ≤ 100000 }
    ensures { IfOk result (λ yes. Answered size yes) }
{
    let none = Declarations::of(Vec::new(alloc));
    count_with(alloc, &none, size)
}

// The same, with these declarations, which are none.
fn count_with(alloc: Global, none: &Declarations, size: u32) -> Result<u32, AllocError>
    requires most { size ≤ 100000 }
    requires none { plain_declarations none.now ≡ NoDeclaration }
    ensures { IfOk result (λ yes. Answered size yes) }
{
    let mut world = World::new(alloc)?;
    match declare(alloc, &mut world, none) {
        Ok(names) => count(alloc, &mut world, &names, size),
        Err(RefusalError::Memory) => Err(AllocError),
        Err(RefusalError::Refused(_)) => unreachable!(),
    }
}

// The same in a world, with the names of no declarations.
fn count(alloc: Global, world: &mut World, names: &Names<'_>, size: u32) -> Result<u32, AllocError>
    requires most { size ≤ 100000 }
    requires none { declared_by names.now ≡ NoDeclaration }
    ensures { IfOk result (λ yes. Answered size yes) }
{
    let wanted = node(alloc, world, names, 99)?;
    let mut yes = 0;
    for number in 0..size {
        if is_within(alloc, world, names, number, wanted)? {
            yes += 1;
        }
    }
    Ok(yes)
}

// Whether the query of a number is answered with yes, where this node stands for what queries ask
// for.
fn is_within(
    alloc: Global,
    world: &mut World,
    names: &Names<'_>,
    number: u32,
    wanted: NodeId,
) -> Result<bool, AllocError>
    requires most { number ≤ 100000 }
    requires none { declared_by names.now ≡ NoDeclaration }
    requires wanted { StandsFor (graph_of world.old) wanted (query_type 99) }
    ensures answer { IfOk result (AnswersQuery number) }
    ensures wanted { OnOk result (StandsFor (graph_of world.new) wanted (query_type 99)) }
{
    let asked = node(alloc, world, names, number)?;
    match world.subtype(asked, wanted)? {
        Verdict::Empty => Ok(true),
        Verdict::Inhabited(_) => Ok(false),
    }
}

// Puts a node of what the query of a number asks of into a world.
fn node(
    alloc: Global,
    world: &mut World,
    names: &Names<'_>,
    number: u32,
) -> Result<NodeId, AllocError>
    requires most { number ≤ 100000 }
    requires none { declared_by names.now ≡ NoDeclaration }
    ensures stands { IfOk result (λ id. StandsFor (graph_of world.new) id (query_type number)) }
    ensures kept { OnOk result (Keeps (graph_of world.old) (graph_of world.new)) }
{
    let tree = query(alloc, number)?;
    put(alloc, world, names, &tree)
}

// Puts a node of a type that sees no declarations into a world.
fn put(
    alloc: Global,
    world: &mut World,
    names: &Names<'_>,
    tree: &Tree,
) -> Result<NodeId, AllocError>
    requires none { declared_by names.now ≡ NoDeclaration }
    requires well_made { IsWellMade (plain tree.now) }
    requires sound { (fault : Fault) → IsFaultOfType NoDeclaration (plain tree.now) fault → ⊥ }
    ensures stands { IfOk result (λ id.
        StandsFor (graph_of world.new) id (type_of NoDeclaration (plain tree.now))) }
    ensures kept { OnOk result (Keeps (graph_of world.old) (graph_of world.new)) }
{
    let batch = match resolve_type(alloc, world.graph(), names, tree) {
        Ok(batch) => batch,
        Err(NameError::Memory) => return Err(AllocError),
        Err(NameError::Fault { .. }) => unreachable!(),
    };
    world.extend(batch.formulas)?;
    Ok(batch.root)
}
