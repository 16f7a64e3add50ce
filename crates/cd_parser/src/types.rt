//! The types, the files of declarations and the programs that tokens write.
ghost use Rattle.std.specs.Prelude.{◌≡◌, ℕ, List, IfOk, IfErr};
ghost use Rattle.cd_syntax.specs.Faults.{IfFault};
ghost use Rattle.cd_syntax.specs.TypeTree.{Tree as PlainTree, Declarations as PlainDeclarations};
ghost use Rattle.cd_syntax.specs.TypeTree.{Declaration as PlainDeclaration, declarations_of};
ghost use Rattle.cd_program.specs.Expr.{FunctionTree as PlainFunction};
ghost use Rattle.cd_program.specs.PlainProgram.{plain_functions, plain_program};
ghost use Rattle.cd_syntax.specs.PlainTree.{plain, plain_declarations};
ghost use Rattle.cd_grammar.specs.Parts.{ATree, AFile, AProgram as ProgramPart};
ghost use Rattle.cd_grammar.specs.Language.{IsTree, AreDeclared, IsProgram};
ghost use Rattle.cd_grammar.specs.Forms.{AType, SomeDeclarations, AProgram};
ghost use Rattle.cd_tree_actions.specs.PlainTreeParts.{plain_tree_part};
ghost use Rattle.cd_parser.specs.Parsed.{IsFault};
ghost use Rattle.cd_parser.specs.PlainParts.{plain_part};

use crate::error::{MOST_OPEN, place_of};
use crate::part::Part;
use crate::reader::read;
use crate::reading::Reading;
use cd_grammar::goal::Goal;
use cd_program::program::{FunctionTrees, Program};
use cd_syntax::fault::{TextError, TextFault};
use cd_syntax::tokens::Token;
use cd_syntax::type_tree::{Declarations, Tree};
use cd_tree_actions::part::TreePart;
use std::alloc::Global;

/// The type that tokens write, all of them; `end` is the place of the end of their text.
///
/// # Errors
///
/// The first fault of syntax or the first place that is more than 1,000 deep, or want of memory.
pub fn parse_type(alloc: Global, tokens: &[Token], end: usize) -> Result<Tree, TextError>
    ensures tree { IfOk result (λ is. IsTree 1000 tokens.now (plain is)) }
    ensures fault { IfErr result (λ error. IfFault error (IsFault AType 1000 tokens.now end)) }
{
    match read(alloc, Goal::TypeText, tokens, MOST_OPEN)? {
        Reading::Whole(part) => Ok(tree_in(part)),
        Reading::Wrong(index) => {
            let at = place_of(tokens, end, index);
            Err(TextError::Fault(TextFault::Syntax(at)))
        }
        Reading::TooDeep(index) => {
            let at = place_of(tokens, end, index);
            Err(TextError::Fault(TextFault::TooDeep(at)))
        }
    }
}

/// The type declarations that tokens write, all of them; `end` is the place of the end of their
/// text.
///
/// # Errors
///
/// The first fault of syntax or the first place that is more than 1,000 deep, or want of memory.
pub fn parse_declarations(
    alloc: Global,
    tokens: &[Token],
    end: usize,
) -> Result<Declarations, TextError>
    ensures declarations { IfOk result (λ declarations.
        AreDeclared 1000 tokens.now (plain_declarations declarations)) }
    ensures fault { IfErr result
        (λ error. IfFault error (IsFault SomeDeclarations 1000 tokens.now end)) }
{
    match read(alloc, Goal::TypeFile, tokens, MOST_OPEN)? {
        Reading::Whole(part) => Ok(file_in(part)),
        Reading::Wrong(index) => {
            let at = place_of(tokens, end, index);
            Err(TextError::Fault(TextFault::Syntax(at)))
        }
        Reading::TooDeep(index) => {
            let at = place_of(tokens, end, index);
            Err(TextError::Fault(TextFault::TooDeep(at)))
        }
    }
}

/// The program that tokens write, all of them; `end` is the place of the end of their text.
///
/// # Errors
///
/// The first fault of syntax or the first place that is more than 1,000 deep, or want of memory.
pub fn parse_program(alloc: Global, tokens: &[Token], end: usize) -> Result<Program, TextError>
    ensures program { IfOk result (λ is. IsProgram 1000 tokens.now (plain_program is)) }
    ensures end { IfOk result (λ is. is.end ≡ end) }
    ensures fault { IfErr result (λ error. IfFault error (IsFault AProgram 1000 tokens.now end)) }
{
    match read(alloc, Goal::ProgramText, tokens, MOST_OPEN)? {
        Reading::Whole(part) => Ok(program_in(part, end)),
        Reading::Wrong(index) => {
            let at = place_of(tokens, end, index);
            Err(TextError::Fault(TextFault::Syntax(at)))
        }
        Reading::TooDeep(index) => {
            let at = place_of(tokens, end, index);
            Err(TextError::Fault(TextFault::TooDeep(at)))
        }
    }
}

// The tree of a part that is one.
fn tree_in(part: Part<'_>) -> Tree
    requires { (is : PlainTree) × (plain_part part ≡ ATree is) }
    ensures { ATree (plain result) ≡ plain_part part.entry }
{
    match part {
        Part::Tree(part) => as_tree(part),
        _ => unreachable!(),
    }
}

fn as_tree(part: TreePart<'_>) -> Tree
    requires { (is : PlainTree) × (plain_tree_part part ≡ ATree is) }
    ensures { ATree (plain result) ≡ plain_tree_part part.entry }
{
    match part {
        TreePart::Tree(tree) => Box::into_inner(tree),
        _ => unreachable!(),
    }
}

// The declarations of a part that is a file of such.
fn file_in(part: Part<'_>) -> Declarations
    requires { (is : PlainDeclarations) × (plain_part part ≡ AFile is) }
    ensures { AFile (plain_declarations result) ≡ plain_part part.entry }
{
    match part {
        Part::Tree(part) => as_file(part),
        _ => unreachable!(),
    }
}

fn as_file(part: TreePart<'_>) -> Declarations
    requires { (is : PlainDeclarations) × (plain_tree_part part ≡ AFile is) }
    ensures { AFile (plain_declarations result) ≡ plain_tree_part part.entry }
{
    match part {
        TreePart::File(declarations) => declarations,
        _ => unreachable!(),
    }
}

// The program of a part that is one.
fn program_in(part: Part<'_>, end: usize) -> Program
    requires { (types : List PlainDeclaration) × (functions : List PlainFunction)
        × (plain_part part ≡ ProgramPart types functions) }
    ensures program { (types : List PlainDeclaration)
        × (plain_declarations result.types ≡ declarations_of types)
        × (plain_part part.entry ≡ ProgramPart types (plain_functions result.functions)) }
    ensures end { result.end ≡ end }
{
    match part {
        Part::Program(types, functions) => Program {
            types: Declarations::of(types),
            functions: FunctionTrees::of(functions),
            end,
        },
        _ => unreachable!(),
    }
}
