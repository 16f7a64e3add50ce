//! The naming faults of what is written, with no nodes for it.
ghost use Rattle.std.specs.Prelude.{◌≡◌, IfOk, OnOk, IfErr};
ghost use Rattle.cd_syntax.specs.PlainTree.{plain, plain_declarations};
ghost use Rattle.cd_syntax.specs.WellMade.{AreWellMadeDeclarations};
ghost use Rattle.cd_syntax.specs.WellMadePattern.{IsWellMadePattern};
ghost use Rattle.cd_resolve.specs.Errors.{IsReportedError};
ghost use Rattle.cd_resolve.specs.Faults.{Fault, IsFaultOfType, IsFaultOfDeclarations};
ghost use Rattle.cd_resolve.specs.Named.{declared_by};

use crate::error::NameError;
use crate::names::Names;
use crate::read::{read_declarations, read_type};
use crate::scope_level::ScopeLevel;
use cd_syntax::type_tree::{Declarations, Tree};
use std::alloc::{AllocError, Global};

/// The names that a list declares, for [`check_tree`]. Their nodes are of no graph.
///
/// # Errors
///
/// Want of memory.
pub fn names_of<'t>(alloc: Global, declared: &'t Declarations) -> Result<Names<'t>, AllocError>
    ensures { IfOk result (λ names. declared_by names ≡ plain_declarations declared.now) }
{
    let level = ScopeLevel::of(alloc, declared, 0, 0)?;
    Ok(Names { level })
}

/// Looks for naming faults in type declarations, which see one another and no others.
///
/// # Errors
///
/// Of all naming faults of the declarations the one with the least place, at one place in the order
/// of `NameFault`; or want of memory.
pub fn check_declarations(alloc: Global, declared: &Declarations) -> Result<(), NameError>
    requires { AreWellMadeDeclarations (plain_declarations declared.now) }
    ensures sound { OnOk result ((fault : Fault)
        → IsFaultOfDeclarations (plain_declarations declared.now) fault → ⊥) }
    ensures fault { IfErr result
        (λ error. IsReportedError (IsFaultOfDeclarations (plain_declarations declared.now)) error) }
{
    read_declarations(alloc, 0, declared)?;
    Ok(())
}

/// Looks for naming faults in a type that sees declared names, or in the types of a pattern that
/// does. Each type is a pattern: [`crate::laws::types_are_patterns`].
///
/// # Errors
///
/// Of all naming faults of the tree the one with the least place, at one place in the order of
/// `NameFault`; or want of memory. Faults of what declares the names are not reported here, nor are
/// those of the tree's variables.
pub fn check_tree(alloc: Global, names: &Names<'_>, tree: &Tree) -> Result<(), NameError>
    requires { IsWellMadePattern (plain tree.now) }
    ensures sound { OnOk result ((fault : Fault)
        → IsFaultOfType (declared_by names.now) (plain tree.now) fault → ⊥) }
    ensures fault { IfErr result
        (λ error. IsReportedError (IsFaultOfType (declared_by names.now) (plain tree.now)) error) }
{
    read_type(alloc, 0, names, tree)?;
    Ok(())
}
