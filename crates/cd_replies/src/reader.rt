//! What texts read as, and nodes for it.
ghost use Rattle.std.specs.Prelude.{◌≡◌, ◌+◌, ◌≤◌, ◌++◌, length, IfOk, IfErr, OnOk};
ghost use Rattle.cd_syntax.specs.PlainTree.{plain_declarations};
ghost use Rattle.cd_syntax.specs.WellMade.{AreWellMadeDeclarations};
ghost use Rattle.cd_program.specs.PlainProgram.{plain_program};
ghost use Rattle.cd_program.specs.WellMade.{IsWellMadeProgram};
ghost use Rattle.cd_model.specs.AllOf.{AllOf};
ghost use Rattle.cd_model.specs.BuiltIns.{built_ins};
ghost use Rattle.cd_model.specs.Formula.{Graph as PlainGraph, IsFormula};
ghost use Rattle.cd_graph.specs.Nodes.{nodes};
ghost use Rattle.cd_graph.specs.PlainFormula.{plain_list};
ghost use Rattle.cd_resolve.specs.Named.{AreNamed, plain_names, declared_by};
ghost use Rattle.cd_replies.specs.Naming.{Writes, AreNamedWell, RefusesNames, StandsForText};
ghost use Rattle.cd_replies.specs.Refusals.{IfRefused};
ghost use Rattle.cd_replies.specs.Texts.{RefusesType, RefusesDeclarations};
ghost use Rattle.cd_replies.specs.Texts.{ReadsAsProgram, RefusesProgram};

use crate::refusal::RefusalError;
use cd_graph::Graph;
use cd_lex::lex;
use cd_names::check_program;
use cd_parser::{parse_declarations, parse_program, parse_type};
use cd_program::program::Program;
use cd_resolve::{Batch, Names, TypeBatch, resolve, resolve_type};
use cd_syntax::type_tree::Declarations;
use std::alloc::Global;

/// The type declarations that a text is written as.
///
/// # Errors
///
/// What stands against the text, its names aside, or want of memory.
pub fn read_declarations(alloc: Global, text: &str) -> Result<Declarations, RefusalError>
    ensures read { IfOk result (λ declared. Writes text.now (plain_declarations declared)) }
    ensures well_made { IfOk result
        (λ declared. AreWellMadeDeclarations (plain_declarations declared)) }
    ensures refused { IfErr result (λ error. IfRefused error (RefusesDeclarations text.now)) }
{
    let tokens = lex(alloc, text)?;
    let declared = parse_declarations(alloc, tokens.as_slice(), text.len())?;
    Ok(declared)
}

/// The program that a text reads as.
///
/// # Errors
///
/// What stands against the text, its types aside, or want of memory.
pub fn read_program(alloc: Global, text: &str) -> Result<Program, RefusalError>
    ensures read { IfOk result (λ program. ReadsAsProgram text.now (plain_program program)) }
    ensures well_made { IfOk result (λ program. IsWellMadeProgram (plain_program program)) }
    ensures refused { IfErr result (λ error. IfRefused error (RefusesProgram text.now)) }
{
    let tokens = lex(alloc, text)?;
    let program = parse_program(alloc, tokens.as_slice(), text.len())?;
    check_program(alloc, &program)?;
    Ok(program)
}

/// Nodes for type declarations, which see one another and no others. Where the formulas are put
/// after those of a graph of `first` nodes that begins with the built-in ones, the node of each
/// name stands for its type.
///
/// # Errors
///
/// The naming fault that is reported of the declarations, or want of memory.
pub fn name_declarations<'t>(
    alloc: Global,
    first: usize,
    declared: &'t Declarations,
) -> Result<Batch<'t>, RefusalError>
    requires well_made { AreWellMadeDeclarations (plain_declarations declared.now) }
    requires built_ins { 14 ≤ first }
    ensures named { OnOk result (AreNamedWell (plain_declarations declared.now)) }
    ensures formulas { IfOk result (λ batch.
        AllOf (IsFormula (first + length (plain_list batch.formulas)))
        (plain_list batch.formulas)) }
    ensures names { IfOk result (λ batch. plain_names batch.names
        ≡ record { declarations = plain_declarations declared.now; first = first }) }
    ensures stand { IfOk result (λ batch. (graph : PlainGraph) → length graph ≡ first
        → ((more : PlainGraph) × (graph ≡ built_ins ++ more))
        → AreNamed (graph ++ plain_list batch.formulas) (plain_names batch.names)) }
    ensures refused { IfErr result
        (λ error. IfRefused error (RefusesNames (plain_declarations declared.now))) }
{
    let batch = resolve(alloc, first, declared)?;
    Ok(batch)
}

/// A node, for this graph, of the type that a text reads as, which sees declared names. Where the
/// formulas are put after those of the graph, the root stands for the type.
///
/// # Errors
///
/// What stands against the text, or want of memory.
pub fn read_type(
    alloc: Global,
    graph: &Graph,
    names: &Names<'_>,
    text: &str,
) -> Result<TypeBatch, RefusalError>
    requires names_sound { AreNamedWell (declared_by names.now) }
    requires named { AreNamed (nodes graph.now) (plain_names names.now) }
    ensures read { IfOk result (λ batch.
        StandsForText (nodes graph.now ++ plain_list batch.formulas) batch.root
        (declared_by names.now) text.now) }
    ensures formulas { IfOk result (λ batch.
        AllOf (IsFormula (length (nodes graph.now) + length (plain_list batch.formulas)))
        (plain_list batch.formulas)) }
    ensures refused { IfErr result
        (λ error. IfRefused error (RefusesType (declared_by names.now) text.now)) }
{
    let tokens = lex(alloc, text)?;
    let tree = parse_type(alloc, tokens.as_slice(), text.len())?;
    let batch = resolve_type(alloc, graph, names, &tree)?;
    Ok(batch)
}
