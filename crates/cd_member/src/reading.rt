//! Nodes in a graph of what texts read as.
ghost use Rattle.std.specs.Prelude.{◌≡◌, IfOk, IfErr, OnOk};
ghost use Rattle.cd_syntax.specs.PlainTree.{plain_declarations};
ghost use Rattle.cd_syntax.specs.WellMade.{AreWellMadeDeclarations};
ghost use Rattle.cd_graph.specs.Nodes.{nodes};
ghost use Rattle.cd_resolve.specs.Named.{AreNamed, plain_names, declared_by};
ghost use Rattle.cd_replies.specs.Naming.{AreNamedWell, RefusesNames, StandsForText};
ghost use Rattle.cd_replies.specs.Refusals.{IfRefused};
ghost use Rattle.cd_replies.specs.Texts.{RefusesType};

use cd_graph::Graph;
use cd_replies::reader::{name_declarations, read_type};
use cd_replies::refusal::RefusalError;
use cd_resolve::Names;
use cd_sets::node_id::NodeId;
use cd_syntax::type_tree::Declarations;
use std::alloc::Global;

/// Puts nodes of the declared names into a graph and gives these names.
///
/// # Errors
///
/// The naming fault that is reported of the declarations, or want of memory.
pub(crate) fn declare<'t>(
    alloc: Global,
    graph: &mut Graph,
    declared: &'t Declarations,
) -> Result<Names<'t>, RefusalError>
    requires { AreWellMadeDeclarations (plain_declarations declared.now) }
    ensures named { OnOk result (AreNamedWell (plain_declarations declared.now)) }
    ensures list { IfOk result (λ names. declared_by names ≡ plain_declarations declared.now) }
    ensures stand { IfOk result (λ names. AreNamed (nodes graph.new) (plain_names names)) }
    ensures refused { IfErr result
        (λ error. IfRefused error (RefusesNames (plain_declarations declared.now))) }
{
    let batch = name_declarations(alloc, graph.len(), declared)?;
    graph.extend(batch.formulas)?;
    Ok(batch.names)
}

/// Puts a node of the type that a text reads as into a graph.
///
/// # Errors
///
/// What stands against the text, or want of memory.
pub(crate) fn node(
    alloc: Global,
    graph: &mut Graph,
    names: &Names<'_>,
    text: &str,
) -> Result<NodeId, RefusalError>
    requires names_sound { AreNamedWell (declared_by names.now) }
    requires named { AreNamed (nodes graph.old) (plain_names names.now) }
    ensures read { IfOk result
        (λ id. StandsForText (nodes graph.new) id (declared_by names.now) text.now) }
    ensures refused { IfErr result
        (λ error. IfRefused error (RefusesType (declared_by names.now) text.now)) }
{
    let batch = read_type(alloc, graph, names, text)?;
    graph.extend(batch.formulas)?;
    Ok(batch.root)
}
