//! What is written, read by one walk: its equations, or the least of its faults.
ghost use Rattle.std.specs.Prelude.{◌≡◌, IfOk, OnOk, IfErr, map, None, Some, [], ◌∷◌};
ghost use Rattle.cd_syntax.specs.PlainTree.{plain, plain_declarations, plain_fields};
ghost use Rattle.cd_syntax.specs.TypeTree.{trees_of};
ghost use Rattle.cd_syntax.specs.WellMade.{AreWellMadeDeclarations};
ghost use Rattle.cd_syntax.specs.WellMadePattern.{IsWellMadePattern};
ghost use Rattle.cd_model.specs.AllOf.{AllOf};
ghost use Rattle.cd_graph.specs.PlainFormula.{plain_named};
ghost use Rattle.cd_resolve.specs.Errors.{IsReportedError};
ghost use Rattle.cd_resolve.specs.Faults.{Fault, IsFaultOfType, IsFaultOfDeclarations};
ghost use Rattle.cd_resolve.specs.Named.{plain_names, declared_by};
ghost use Rattle.cd_resolve.specs.Wanted.{wanted_tree};
ghost use Rattle.cd_resolve.specs.Inner.Check.{found_in_type, all_faults};
ghost use Rattle.cd_resolve.specs.Least.{least_from, IsLeast};
ghost use Rattle.cd_shared.specs.Equation.{plain_equations};
ghost use Rattle.cd_resolve.specs.Inner.FreeFields.{free_named};
ghost use Rattle.cd_resolve.specs.Inner.Names.{numbered};
ghost use Rattle.cd_resolve.specs.Inner.PlainBase.{names_outside, lists_outside};
ghost use Rattle.cd_resolve.specs.PlainReported.{plain_reported};
ghost use Rattle.cd_resolve.specs.Inner.PlainFound.{plain_found};
ghost use Rattle.cd_resolve.specs.Inner.Walk.{walked, walked_list, walked_trees};

use crate::base::Base;
use crate::cycle::report_cycles;
use crate::declare::walk_list;
use crate::error::NameError;
use crate::found::Found;
use crate::least::report_least;
use crate::names::Names;
use crate::reported::Reported;
use crate::state::State;
use crate::walk::walk;
use crate::wanted::{Want, WantedType};
use cd_graph::built_in::ANY;
use cd_graph::fields::Field;
use cd_sets::node_id::NodeId;
use cd_shared::Equation;
use cd_syntax::name::Name;
use cd_syntax::type_tree::{Declarations, FieldTrees, Tree};
use std::alloc::{AllocError, Global};

/// The equations of type declarations, which see one another and none else, from the node of this
/// number on, and their names.
///
/// # Errors
///
/// Of all naming faults of the declarations the one with the least place, at one place in the order
/// of `NameFault`; or want of memory.
pub(crate) fn read_declarations<'t>(
    alloc: Global,
    first: usize,
    declared: &'t Declarations,
) -> Result<(Vec<Option<Equation>>, Names<'t>), NameError>
    requires { AreWellMadeDeclarations (plain_declarations declared.now) }
    ensures sound { OnOk result ((fault : Fault)
        → IsFaultOfDeclarations (plain_declarations declared.now) fault → ⊥) }
    ensures fault { IfErr result
        (λ error. IsReportedError (IsFaultOfDeclarations (plain_declarations declared.now)) error) }
    ensures equations { IfOk result (λ read. plain_equations read.0.items
        ≡ walked_list first [] [] (plain_declarations declared.now) []) }
    ensures names { IfOk result (λ read. plain_names read.1
        ≡ record { declarations = plain_declarations declared.now; first = first }) }
{
    let mut state = State::new(alloc);
    let mut found = Found::new(alloc);
    let base = Base {
        alloc,
        first,
        outer: None,
    };
    let level = walk_list(&base, declared, &mut state, &mut found)?;
    match reported(alloc, found) {
        Ok(()) => Ok((state.equations, Names { level })),
        Err(error) => Err(error),
    }
}

/// The equations of a type, which sees these names beside those of its own `where`, from the node
/// of this number on, and the type's node. A pattern is read as a type is, and of its variables,
/// defaults and captures no equations are made.
///
/// # Errors
///
/// Of all naming faults of the type the one with the least place, at one place in the order of
/// `NameFault`; or want of memory. Faults of what declares the names are not reported here.
pub(crate) fn read_type(
    alloc: Global,
    first: usize,
    names: &Names<'_>,
    tree: &Tree,
) -> Result<(Vec<Option<Equation>>, NodeId), NameError>
    requires { IsWellMadePattern (plain tree.now) }
    ensures sound { OnOk result ((fault : Fault)
        → IsFaultOfType (declared_by names.now) (plain tree.now) fault → ⊥) }
    ensures fault { IfErr result
        (λ error. IsReportedError (IsFaultOfType (declared_by names.now) (plain tree.now)) error) }
    ensures equations { IfOk result (λ read. (read.1, plain_equations read.0.items)
        ≡ walked first (numbered (plain_names names.now).first (declared_by names.now)) []
        (plain tree.now) []) }
{
    let mut state = State::new(alloc);
    let base = Base {
        alloc,
        first,
        outer: Some(&names.level),
    };
    let (root, found) = walk_type(&base, names.level.declarations, tree, &mut state)?;
    match reported(alloc, found) {
        Ok(()) => Ok((state.equations, root)),
        Err(error) => Err(error),
    }
}

/// The equations of types, which see these names beside those of their own `where`, from the node
/// of this number on, and the nodes of the types. Their faults are not reported.
pub(crate) fn read_types(
    alloc: Global,
    first: usize,
    names: &Names<'_>,
    wanted: &[WantedType<'_>],
) -> Result<(Vec<Option<Equation>>, Vec<NodeId>), AllocError>
    requires { AllOf (λ one. IsWellMadePattern (wanted_tree one)) wanted.now }
    ensures { IfOk result (λ read. (read.1.items, plain_equations read.0.items)
        ≡ walked_trees first (numbered (plain_names names.now).first (declared_by names.now)) []
        (trees_of (map wanted_tree wanted.now)) [] []) }
{
    let mut state = State::new(alloc);
    let base = Base {
        alloc,
        first,
        outer: Some(&names.level),
    };
    let roots = walk_types(&base, wanted, &mut state)?;
    Ok((state.equations, roots))
}

// The nodes of types, which are walked over in turn.
fn walk_types<'t>(
    base: &Base<'_, '_>,
    wanted: &[WantedType<'t>],
    state: &mut State,
) -> Result<Vec<NodeId>, AllocError>
    requires { AllOf (λ one. IsWellMadePattern (wanted_tree one)) wanted.now }
    ensures { IfOk result (λ roots. (roots.items, plain_equations state.new.equations.items)
        ≡ walked_trees base.now.first (names_outside base.now) []
        (trees_of (map wanted_tree wanted.now)) [] (plain_equations state.old.equations.items)) }
{
    let mut found = Found::new(base.alloc);
    let mut roots = Vec::new(base.alloc);
    for one in wanted {
        roots.push(walk_wanted(base, *one, state, &mut found)?)?;
    }
    Ok(roots)
}

// The node of what is wanted of a tree: its type, all but this, or the records whose other fields
// are of it.
fn walk_wanted<'t>(
    base: &Base<'_, '_>,
    wanted: WantedType<'t>,
    state: &mut State,
    found: &mut Found<'t>,
) -> Result<NodeId, AllocError>
    requires { IsWellMadePattern (wanted_tree wanted) }
    ensures { IfOk result (λ id. (id, plain_equations state.new.equations.items)
        ≡ walked base.now.first (names_outside base.now) [] (wanted_tree wanted.entry)
        (plain_equations state.old.equations.items)) }
{
    match wanted.what {
        Want::Itself => walk(base, wanted.tree, &[], None, state, found),
        Want::Outside => {
            let id = walk(base, wanted.tree, &[], None, state, found)?;
            state.meet(base, &[(true, ANY), (false, id)])
        }
        Want::Others(fields) => {
            let named = free_fields(base.alloc, fields)?;
            let id = walk(base, wanted.tree, &[], None, state, found)?;
            state.record(base, named, id)
        }
    }
}

// The labels of fields, at each of which there may be nothing or anything.
fn free_fields(alloc: Global, fields: &FieldTrees) -> Result<Vec<(Name, Field)>, AllocError>
    ensures { IfOk result (λ made. plain_named made.items ≡ free_named (plain_fields fields.now)) }
{
    let mut made = Vec::new(alloc);
    for field in fields.items() {
        let optional = true;
        made.push((
            field.label.copy()?,
            Field {
                optional,
                node: ANY,
            },
        ))?;
    }
    Ok(made)
}

// Walks over a type that sees this list of declarations beside those of its own `where`.
fn walk_type<'t>(
    base: &Base<'_, '_>,
    declared: &'t Declarations,
    tree: &'t Tree,
    state: &mut State,
) -> Result<(NodeId, Found<'t>), AllocError>
    requires well_made { IsWellMadePattern (plain tree.now) }
    requires seen { lists_outside base.now
        ≡ record { declarations = plain_declarations declared.now; list = 0 } ∷ [] }
    ensures found { IfOk result (λ read. plain_found read.1
        ≡ found_in_type (plain_declarations declared.now) (plain tree.now)) }
    ensures equations { IfOk result (λ read. (read.0, plain_equations state.new.equations.items)
        ≡ walked base.now.first (names_outside base.now) [] (plain tree.now)
        (plain_equations state.old.equations.items)) }
{
    let mut found = Found::new(base.alloc);
    found.enter(declared)?;
    let root = walk(base, tree, &[], None, state, &mut found)?;
    Ok((root, found))
}

// Reports the least fault of what is found.
fn reported(alloc: Global, found: Found<'_>) -> Result<(), NameError>
    ensures sound { OnOk result (least_from None (all_faults (plain_found found.entry)) ≡ None) }
    ensures fault { IfErr result
        (λ error. IsLeast (least_from None (all_faults (plain_found found.entry))) error) }
{
    let faults = faults_of(alloc, found)?;
    report_least(alloc, faults.as_slice())
}

// All faults of what is found.
fn faults_of<'t>(alloc: Global, found: Found<'t>) -> Result<Vec<Reported<'t>>, AllocError>
    ensures { IfOk result (λ faults.
        map plain_reported faults.items ≡ all_faults (plain_found found.entry)) }
{
    let mut faults = found.faults;
    report_cycles(alloc, found.links.as_slice(), &mut faults)?;
    Ok(faults)
}
