//! Nodes in a world of what is declared.
ghost use Rattle.std.specs.Prelude.{◌≡◌, IfOk, IfErr, OnOk};
ghost use Rattle.cd_syntax.specs.PlainTree.{plain_declarations};
ghost use Rattle.cd_syntax.specs.WellMade.{AreWellMadeDeclarations};
ghost use Rattle.cd_model.specs.Formula.{IsGraph};
ghost use Rattle.cd_resolve.specs.Named.{AreNamed, plain_names, declared_by};
ghost use Rattle.cd_empty.specs.Growth.{Grows};
ghost use Rattle.cd_empty.specs.Seen.{graph_of};
ghost use Rattle.cd_replies.specs.Naming.{AreNamedWell, RefusesNames};
ghost use Rattle.cd_replies.specs.Refusals.{IfRefused};

use crate::reader::name_declarations;
use crate::refusal::RefusalError;
use cd_empty::World;
use cd_resolve::Names;
use cd_syntax::type_tree::Declarations;
use std::alloc::Global;

/// Puts nodes of the declared names into a world and gives these names.
///
/// # Errors
///
/// The naming fault that is reported of the declarations, or want of memory.
pub fn declare<'t>(
    alloc: Global,
    world: &mut World,
    declared: &'t Declarations,
) -> Result<Names<'t>, RefusalError>
    requires { AreWellMadeDeclarations (plain_declarations declared.now) }
    ensures graph { IsGraph (graph_of world.new) }
    ensures named { OnOk result (AreNamedWell (plain_declarations declared.now)) }
    ensures list { IfOk result (λ names. declared_by names ≡ plain_declarations declared.now) }
    ensures stand { IfOk result (λ names. AreNamed (graph_of world.new) (plain_names names)) }
    ensures refused { IfErr result
        (λ error. IfRefused error (RefusesNames (plain_declarations declared.now))) }
    ensures grows { Grows world.old world.new }
{
    let batch = name_declarations(alloc, world.graph().len(), declared)?;
    world.extend(batch.formulas)?;
    Ok(batch.names)
}
