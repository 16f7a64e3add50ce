//! The walk over a tree, which makes the equations of its nodes and finds its faults.
ghost use Rattle.std.specs.Prelude.{◌≡◌, IfOk, [], ◌∷◌, true, None};
ghost use Rattle.cd_syntax.specs.TypeTree.{Union, Meet, Xml};
ghost use Rattle.cd_syntax.specs.PlainTree.{plain, plain_kind, plain_trees, plain_signs};
ghost use Rattle.cd_syntax.specs.WellMade.{HaveTwoTrees};
ghost use Rattle.cd_syntax.specs.WellMadePattern.{IsWellMadePattern, IsWellMadePatternKind};
ghost use Rattle.cd_syntax.specs.WellMadePattern.{AreWellMadePatterns, AreWellMadePatternSigns};
ghost use Rattle.cd_shared.specs.Equation.{plain_equations};
ghost use Rattle.cd_resolve.specs.Inner.Finding.{innermost, met, declared_under};
ghost use Rattle.cd_resolve.specs.Inner.Finding.{found_in, found_in_kind, found_in_trees};
ghost use Rattle.cd_resolve.specs.Inner.Finding.{found_in_signs};
ghost use Rattle.cd_resolve.specs.Inner.ScopeLevels.{node_under};
ghost use Rattle.cd_resolve.specs.Inner.PlainBase.{names_outside, lists_seen};
ghost use Rattle.cd_resolve.specs.Inner.PlainFound.{plain_found, plain_start};
ghost use Rattle.cd_resolve.specs.Inner.PlainState.{plain_levels, chain_of};
ghost use Rattle.cd_resolve.specs.Inner.Walk.{walked, walked_kind, walked_trees, walked_signs};

use crate::base::Base;
use crate::declare::walk_where;
use crate::found::{Found, Id};
use crate::leaves::{atom, characters, integers};
use crate::lookup::meaning_of;
use crate::record::walk_record;
use crate::scope_level::ScopeLevel;
use crate::sequence::walk_sequence;
use crate::state::{Joint, State};
use cd_graph::Formula;
use cd_graph::built_in::{EMPTY, node_of};
use cd_sets::node_id::NodeId;
use cd_shared::Equation;
use cd_syntax::name::Name;
use cd_syntax::type_tree::{Signed, Tree, TreeKind, Trees};
use std::alloc::AllocError;

/// Walks over a tree under these scope levels, and gives the node of its type. `start` is the
/// declared name that leads to the tree through no constructor, if one does.
#[cycle(walk)]
pub(crate) fn walk<'t>(
    base: &Base<'_, '_>,
    tree: &'t Tree,
    levels: &[ScopeLevel<'t>],
    start: Option<Id<'t>>,
    state: &mut State,
    found: &mut Found<'t>,
) -> Result<NodeId, AllocError>
    requires { IsWellMadePattern (plain tree.now) }
    ensures found { IfOk result (λ _. plain_found found.new
        ≡ found_in innermost (lists_seen base.now levels.now) (plain_start start.entry)
        (plain tree.now) (plain_found found.old)) }
    ensures equations { IfOk result (λ id. (id, plain_equations state.new.equations.items)
        ≡ walked base.now.first (names_outside base.now) (plain_levels levels.now)
        (plain tree.now) (plain_equations state.old.equations.items)) }
{
    let at = tree.span.from;
    walk_kind(base, &tree.kind, at, levels, start, state, found)
}

// Walks over what a tree is, which stands at this place in the text.
#[cycle(walk)]
fn walk_kind<'t>(
    base: &Base<'_, '_>,
    kind: &'t TreeKind,
    at: usize,
    levels: &[ScopeLevel<'t>],
    start: Option<Id<'t>>,
    state: &mut State,
    found: &mut Found<'t>,
) -> Result<NodeId, AllocError>
    requires { IsWellMadePatternKind (plain_kind kind.now) }
    ensures found { IfOk result (λ _. plain_found found.new
        ≡ found_in_kind innermost (lists_seen base.now levels.now) (plain_start start.entry) at
        (plain_kind kind.now) (plain_found found.old)) }
    ensures equations { IfOk result (λ id. (id, plain_equations state.new.equations.items)
        ≡ walked_kind base.now.first (names_outside base.now) (plain_levels levels.now)
        (plain_kind kind.now) (plain_equations state.old.equations.items)) }
{
    match kind {
        TreeKind::Builtin(name) => Ok(node_of(*name)),
        TreeKind::Ints(low, high) => state.leaf(base, integers(base.alloc, *low, *high)?),
        TreeKind::Chars(low, high) => state.leaf(base, characters(base.alloc, *low, *high)?),
        TreeKind::Atom(name) => state.leaf(base, Some(atom(base.alloc, name)?)),
        TreeKind::Text(text) => state.text(base, text),
        TreeKind::Tuple(trees) => walk_chain(base, Joint::Pairs, trees, levels, state, found),
        TreeKind::Arrows(trees) => walk_chain(base, Joint::Arrows, trees, levels, state, found),
        TreeKind::Union(trees) => walk_union(base, trees, levels, start, state, found),
        TreeKind::Meet(first, signs) => walk_meet(base, first, signs, levels, start, state, found),
        TreeKind::Record(fields, rest) => walk_record(base, fields, rest, levels, state, found),
        TreeKind::Xml(tag, attributes, content) => {
            walk_xml(base, tag, attributes, content, levels, state, found)
        }
        TreeKind::Named(name) => walk_named(base, name, at, levels, start, found),
        TreeKind::Where(body, declarations) => {
            walk_where(base, body, declarations, levels, start, state, found)
        }
        TreeKind::Sequence(expression) => walk_sequence(base, expression, levels, state, found),
        // Forms of patterns, of which no equations are made.
        TreeKind::Variable(_) | TreeKind::Default(_, _) => Ok(EMPTY),
    }
}

// A name that is met. One that nothing declares holds nothing.
fn walk_named<'t>(
    base: &Base<'_, '_>,
    name: &'t Name,
    at: usize,
    levels: &[ScopeLevel<'t>],
    start: Option<Id<'t>>,
    found: &mut Found<'t>,
) -> Result<NodeId, AllocError>
    ensures found { IfOk result (λ _. plain_found found.new
        ≡ met (plain_start start.entry) name.now at
        (declared_under (lists_seen base.now levels.now) name.now) (plain_found found.old)) }
    ensures node { IfOk result (λ id.
        id ≡ node_under (names_outside base.now) (plain_levels levels.now) name.now) }
{
    match meaning_of(base, levels, name)? {
        Some(meaning) => {
            found.meet(start, name, at, Some(meaning.declared_at))?;
            Ok(meaning.id)
        }
        None => {
            found.meet(start, name, at, None)?;
            Ok(EMPTY)
        }
    }
}

// A tuple, or a chain of arrows, of two trees or more.
#[cycle(walk)]
fn walk_chain<'t>(
    base: &Base<'_, '_>,
    joint: Joint,
    trees: &'t Trees,
    levels: &[ScopeLevel<'t>],
    state: &mut State,
    found: &mut Found<'t>,
) -> Result<NodeId, AllocError>
    requires two { HaveTwoTrees (plain_trees trees.now) }
    requires parts { AreWellMadePatterns (plain_trees trees.now) }
    ensures found { IfOk result (λ _. plain_found found.new
        ≡ found_in_trees innermost (lists_seen base.now levels.now) None
        (plain_trees trees.now) (plain_found found.old)) }
    ensures equations { IfOk result (λ id. (id, plain_equations state.new.equations.items)
        ≡ walked_kind base.now.first (names_outside base.now) (plain_levels levels.now)
        (chain_of joint (plain_trees trees.now)) (plain_equations state.old.equations.items)) }
{
    let ids = walk_trees(base, trees, levels, None, state, found)?;
    Ok(state.chain(base, joint, ids.as_slice())?)
}

// A union of trees, which are walked over in turn.
#[cycle(walk)]
fn walk_union<'t>(
    base: &Base<'_, '_>,
    trees: &'t Trees,
    levels: &[ScopeLevel<'t>],
    start: Option<Id<'t>>,
    state: &mut State,
    found: &mut Found<'t>,
) -> Result<NodeId, AllocError>
    requires { AreWellMadePatterns (plain_trees trees.now) }
    ensures found { IfOk result (λ _. plain_found found.new
        ≡ found_in_trees innermost (lists_seen base.now levels.now) (plain_start start.entry)
        (plain_trees trees.now) (plain_found found.old)) }
    ensures equations { IfOk result (λ id. (id, plain_equations state.new.equations.items)
        ≡ walked_kind base.now.first (names_outside base.now) (plain_levels levels.now)
        (Union (plain_trees trees.now)) (plain_equations state.old.equations.items)) }
{
    let ids = walk_trees(base, trees, levels, start, state, found)?;
    state.union(base, ids.as_slice())
}

// The nodes of trees, which are walked over in turn.
#[cycle(walk)]
fn walk_trees<'t>(
    base: &Base<'_, '_>,
    trees: &'t Trees,
    levels: &[ScopeLevel<'t>],
    start: Option<Id<'t>>,
    state: &mut State,
    found: &mut Found<'t>,
) -> Result<Vec<NodeId>, AllocError>
    requires { AreWellMadePatterns (plain_trees trees.now) }
    ensures found { IfOk result (λ _. plain_found found.new
        ≡ found_in_trees innermost (lists_seen base.now levels.now) (plain_start start.entry)
        (plain_trees trees.now) (plain_found found.old)) }
    ensures equations { IfOk result (λ made.
        (made.items, plain_equations state.new.equations.items)
        ≡ walked_trees base.now.first (names_outside base.now) (plain_levels levels.now)
        (plain_trees trees.now) [] (plain_equations state.old.equations.items)) }
{
    let mut made = Vec::new(base.alloc);
    for tree in trees.items() {
        made.push(walk(base, tree, levels, start, state, found)?)?;
    }
    Ok(made)
}

// A tree that others are met with or taken from.
#[cycle(walk)]
fn walk_meet<'t>(
    base: &Base<'_, '_>,
    first: &'t Tree,
    signs: &'t Signed,
    levels: &[ScopeLevel<'t>],
    start: Option<Id<'t>>,
    state: &mut State,
    found: &mut Found<'t>,
) -> Result<NodeId, AllocError>
    requires first { IsWellMadePattern (plain first.now) }
    requires signs { AreWellMadePatternSigns (plain_signs signs.now) }
    ensures found { IfOk result (λ _. plain_found found.new
        ≡ found_in_signs innermost (lists_seen base.now levels.now) (plain_start start.entry)
        (plain_signs signs.now)
        (found_in innermost (lists_seen base.now levels.now) (plain_start start.entry)
        (plain first.now) (plain_found found.old))) }
    ensures equations { IfOk result (λ id. (id, plain_equations state.new.equations.items)
        ≡ walked_kind base.now.first (names_outside base.now) (plain_levels levels.now)
        (Meet (plain first.now) (plain_signs signs.now))
        (plain_equations state.old.equations.items)) }
{
    let first = walk(base, first, levels, start, state, found)?;
    let signs = walk_signs(base, first, signs, levels, start, state, found)?;
    state.meet(base, signs.as_slice())
}

// The nodes of the trees with their signs: of the first, which is kept, and then of these.
#[cycle(walk)]
fn walk_signs<'t>(
    base: &Base<'_, '_>,
    first: NodeId,
    signs: &'t Signed,
    levels: &[ScopeLevel<'t>],
    start: Option<Id<'t>>,
    state: &mut State,
    found: &mut Found<'t>,
) -> Result<Vec<(bool, NodeId)>, AllocError>
    requires { AreWellMadePatternSigns (plain_signs signs.now) }
    ensures found { IfOk result (λ _. plain_found found.new
        ≡ found_in_signs innermost (lists_seen base.now levels.now) (plain_start start.entry)
        (plain_signs signs.now) (plain_found found.old)) }
    ensures equations { IfOk result (λ made.
        (made.items, plain_equations state.new.equations.items)
        ≡ walked_signs base.now.first (names_outside base.now) (plain_levels levels.now)
        (plain_signs signs.now) ((true, first) ∷ []) (plain_equations state.old.equations.items)) }
{
    let mut made = Vec::new(base.alloc);
    made.push((true, first))?;
    for sign in signs.items() {
        made.push((
            sign.kept,
            walk(base, &sign.tree, levels, start, state, found)?,
        ))?;
    }
    Ok(made)
}

// An XML type, whose tag, attributes and content are walked over in turn.
#[cycle(walk)]
fn walk_xml<'t>(
    base: &Base<'_, '_>,
    tag: &'t Tree,
    attributes: &'t Tree,
    content: &'t Tree,
    levels: &[ScopeLevel<'t>],
    state: &mut State,
    found: &mut Found<'t>,
) -> Result<NodeId, AllocError>
    requires tag { IsWellMadePattern (plain tag.now) }
    requires attributes { IsWellMadePattern (plain attributes.now) }
    requires content { IsWellMadePattern (plain content.now) }
    ensures found { IfOk result (λ _. plain_found found.new
        ≡ found_in innermost (lists_seen base.now levels.now) None (plain content.now)
        (found_in innermost (lists_seen base.now levels.now) None (plain attributes.now)
        (found_in innermost (lists_seen base.now levels.now) None (plain tag.now)
        (plain_found found.old)))) }
    ensures equations { IfOk result (λ id. (id, plain_equations state.new.equations.items)
        ≡ walked_kind base.now.first (names_outside base.now) (plain_levels levels.now)
        (Xml (plain tag.now) (plain attributes.now) (plain content.now))
        (plain_equations state.old.equations.items)) }
{
    let tag = walk(base, tag, levels, None, state, found)?;
    let attributes = walk(base, attributes, levels, None, state, found)?;
    let content = walk(base, content, levels, None, state, found)?;
    state.push(base, Equation::Is(Formula::xml(tag, attributes, content)))
}
