//! The set of one part of each of some pairs or XML types.
ghost use Rattle.std.specs.Prelude.{◌≡◌, [], ◌∷◌, ◌++◌, map, IfOk};
ghost use Rattle.cd_rules.specs.Needs.{set_of, with_id};

use cd_sets::id_set::IdSet;
use cd_sets::node_id::NodeId;
use std::alloc::{AllocError, Global};

/// The set of the first parts of pairs.
pub(crate) fn firsts(alloc: Global, pairs: &[(NodeId, NodeId)]) -> Result<IdSet, AllocError>
    ensures { IfOk result (λ set. set ≡ set_of (map (λ parts. parts.0) pairs.now)) }
{
    let mut set = IdSet::new(alloc);
    for parts in pairs {
        set.insert(parts.0)?;
    }
    // The contract of this call says that the set rises.
    set.knows();
    Ok(set)
}

/// The set of the second parts of pairs.
pub(crate) fn seconds(alloc: Global, pairs: &[(NodeId, NodeId)]) -> Result<IdSet, AllocError>
    ensures { IfOk result (λ set. set ≡ set_of (map (λ parts. parts.1) pairs.now)) }
{
    let mut set = IdSet::new(alloc);
    for parts in pairs {
        set.insert(parts.1)?;
    }
    // The contract of this call says that the set rises.
    set.knows();
    Ok(set)
}

/// A set with the tags of XML types too.
pub(crate) fn with_tags(
    set: IdSet,
    triples: &[(NodeId, NodeId, NodeId)],
) -> Result<IdSet, AllocError>
    ensures { IfOk result (λ all. all ≡ set_of (set ++ map (λ parts. parts.0) triples.now)) }
{
    let mut all = set;
    for parts in triples {
        all.insert(parts.0)?;
    }
    // The contract of this call says that the set rises.
    all.knows();
    Ok(all)
}

/// A set with the attributes of XML types too.
pub(crate) fn with_attributes(
    set: IdSet,
    triples: &[(NodeId, NodeId, NodeId)],
) -> Result<IdSet, AllocError>
    ensures { IfOk result (λ all. all ≡ set_of (set ++ map (λ parts. parts.1) triples.now)) }
{
    let mut all = set;
    for parts in triples {
        all.insert(parts.1)?;
    }
    // The contract of this call says that the set rises.
    all.knows();
    Ok(all)
}

/// The set of the contents of XML types.
pub(crate) fn contents(
    alloc: Global,
    triples: &[(NodeId, NodeId, NodeId)],
) -> Result<IdSet, AllocError>
    ensures { IfOk result (λ set. set ≡ set_of (map (λ parts. parts.2) triples.now)) }
{
    let mut set = IdSet::new(alloc);
    for parts in triples {
        set.insert(parts.2)?;
    }
    // The contract of this call says that the set rises.
    set.knows();
    Ok(set)
}

// A set with one more number.
fn with(mut set: IdSet, id: NodeId) -> Result<IdSet, AllocError>
    ensures { IfOk result (λ all. all ≡ with_id id set) }
{
    set.knows();
    set.insert(id)?;
    // The contract of this call says that the set rises.
    set.knows();
    Ok(set)
}

/// The set of one number.
pub(crate) fn one(alloc: Global, id: NodeId) -> Result<IdSet, AllocError>
    ensures { IfOk result (λ set. set ≡ set_of (id ∷ [])) }
{
    with(IdSet::new(alloc), id)
}
