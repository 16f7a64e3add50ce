//! What names mean where they are met.
ghost use Rattle.std.specs.Prelude.{◌≡◌, ◌+◌, [], Option, None, IfOk};
ghost use Rattle.cd_sets.specs.declared.node_id.NodeId.{NodeId as AnId};
ghost use Rattle.cd_model.specs.BuiltIns.{node, EMPTY as NOTHING};
ghost use Rattle.cd_resolve.specs.Named.{index_in};
ghost use Rattle.cd_resolve.specs.Inner.Finding.{DeclaredAt as PlainDeclaredAt, place_in};
ghost use Rattle.cd_resolve.specs.Inner.Finding.{declared_here_or, declared_under};
ghost use Rattle.cd_resolve.specs.Inner.ScopeLevels.{declared_or, node_under};
ghost use Rattle.cd_resolve.specs.Inner.Meaning.{id_or, declared_at_or};
ghost use Rattle.cd_resolve.specs.Inner.PlainBase.{names_outside, lists_outside, lists_seen};
ghost use Rattle.cd_resolve.specs.Inner.PlainFound.{list_level};
ghost use Rattle.cd_resolve.specs.Inner.PlainState.{plain_level, plain_levels};

use crate::base::Base;
use crate::found::DeclaredAt;
use crate::scope_level::ScopeLevel;
use cd_sets::node_id::NodeId;
use cd_syntax::name::Name;
use std::alloc::AllocError;

/// What a name means: its node, and where it is declared.
#[derive(Clone, Copy)]
pub(crate) struct Meaning {
    pub(crate) id: NodeId,
    pub(crate) declared_at: DeclaredAt,
}

/// What a name means by the innermost level that declares it, or else by that which is seen from
/// outside.
pub(crate) fn meaning_of(
    base: &Base<'_, '_>,
    levels: &[ScopeLevel<'_>],
    name: &Name,
) -> Result<Option<Meaning>, AllocError>
    ensures node { IfOk result (λ meaning. id_or meaning NOTHING
        ≡ node_under (names_outside base.now) (plain_levels levels.now) name.now) }
    ensures declared_at { IfOk result (λ meaning. declared_at_or meaning None
        ≡ declared_under (lists_seen base.now levels.now) name.now) }
{
    for level in levels {
        if let Some(meaning) = meaning_in(level, name)? {
            return Ok(Some(meaning));
        }
    }
    meaning_outside(base, name)
}

// What a name means by the level that is seen from outside.
fn meaning_outside(base: &Base<'_, '_>, name: &Name) -> Result<Option<Meaning>, AllocError>
    ensures node { IfOk result (λ meaning. id_or meaning NOTHING
        ≡ node_under (names_outside base.now) [] name.now) }
    ensures declared_at { IfOk result (λ meaning. declared_at_or meaning None
        ≡ declared_under (lists_outside base.now) name.now) }
{
    match base.outer {
        Some(level) => meaning_in(level, name),
        None => Ok(None),
    }
}

// What a name means by a level, if this declares it.
fn meaning_in(level: &ScopeLevel<'_>, name: &Name) -> Result<Option<Meaning>, AllocError>
    ensures node { IfOk result (λ meaning. (outer : AnId) → id_or meaning outer
        ≡ declared_or (plain_level level.now).first
        (index_in (plain_level level.now).declarations name.now) outer) }
    ensures declared_at { IfOk result
        (λ meaning. (outer : Option PlainDeclaredAt) → declared_at_or meaning outer
        ≡ declared_here_or (list_level level.now).list
        (place_in (list_level level.now).declarations name.now) outer) }
{
    let Some(spot) = level.find(name) else {
        return Ok(None);
    };
    let id = node_at(level.first, spot.index)?;
    let declared_at = DeclaredAt {
        list: level.list,
        at: spot.at,
    };
    Ok(Some(Meaning { id, declared_at }))
}

// The node of the name at an index of a list.
fn node_at(first: usize, index: usize) -> Result<NodeId, AllocError>
    ensures { IfOk result (λ id. id ≡ node (first + index)) }
{
    // No graph is so long.
    let Some(number) = first.checked_add(index) else {
        return Err(AllocError);
    };
    Ok(NodeId(number))
}
