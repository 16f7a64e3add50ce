//! What a part of a program is, where it is of one kind.
ghost use Rattle.std.specs.Prelude.{◌≡◌, map, reverse};
ghost use Rattle.std.specs.Option.{option_map};
ghost use Rattle.cd_syntax.specs.PlainTree.{plain_declaration};
ghost use Rattle.cd_program.specs.PlainExpr.{plain, plain_tail, plain_item, plain_field};
ghost use Rattle.cd_program.specs.PlainExpr.{plain_branch, plain_signature, plain_function};
ghost use Rattle.cd_grammar.specs.Parts.{expr_in, exprs_in, chain_in, items_in, expr_fields_in};
ghost use Rattle.cd_grammar.specs.Parts.{branches_in, signatures_in, steps_in, sources_in};
ghost use Rattle.cd_grammar.specs.Parts.{function_in, program_in};
ghost use Rattle.cd_query.specs.PlainParts.{plain_step, plain_source};
ghost use Rattle.cd_parser.specs.PlainParts.{plain_part};

use crate::part::Part;
use cd_program::expr::{Branch, Expr, FieldExpr, FunctionTree, Item, Signature, Tail};
use cd_query::parts::{Source, Step};
use cd_syntax::type_tree::Declaration;

/// The expression that a part is.
pub(crate) fn expr_of<'t>(part: Part<'t>) -> Option<Box<Expr>>
    ensures { option_map (λ is. plain is.value) result ≡ expr_in (plain_part part.entry) }
{
    match part {
        Part::Expr(is) => Some(is),
        other => {
            drop(other);
            None
        }
    }
}

/// The expressions that a part is.
pub(crate) fn exprs_of<'t>(part: Part<'t>) -> Option<Vec<Expr>>
    ensures { option_map (λ all. map plain all.items) result ≡ exprs_in (plain_part part.entry) }
{
    match part {
        Part::Exprs(all) => Some(all),
        other => {
            drop(other);
            None
        }
    }
}

/// The expression and the operators after it that a part is.
pub(crate) fn chain_of<'t>(part: Part<'t>) -> Option<(Box<Expr>, Vec<Tail>)>
    ensures { option_map (λ all. (plain all.0.value, map plain_tail all.1.items)) result
        ≡ chain_in (plain_part part.entry) }
{
    match part {
        Part::Chain(first, rest) => Some((first, rest)),
        other => {
            drop(other);
            None
        }
    }
}

/// The items that a part is.
pub(crate) fn items_of<'t>(part: Part<'t>) -> Option<Vec<Item>>
    ensures { option_map (λ all. map plain_item all.items) result
        ≡ items_in (plain_part part.entry) }
{
    match part {
        Part::Items(all) => Some(all),
        other => {
            drop(other);
            None
        }
    }
}

/// The fields of expressions that a part is.
pub(crate) fn expr_fields_of<'t>(part: Part<'t>) -> Option<Vec<FieldExpr>>
    ensures { option_map (λ all. map plain_field all.items) result
        ≡ expr_fields_in (plain_part part.entry) }
{
    match part {
        Part::ExprFields(all) => Some(all),
        other => {
            drop(other);
            None
        }
    }
}

/// The branches that a part is.
pub(crate) fn branches_of<'t>(part: Part<'t>) -> Option<Vec<Branch>>
    ensures { option_map (λ all. map plain_branch all.items) result
        ≡ branches_in (plain_part part.entry) }
{
    match part {
        Part::Branches(all) => Some(all),
        other => {
            drop(other);
            None
        }
    }
}

/// The arrows of a function that a part is.
pub(crate) fn signatures_of<'t>(part: Part<'t>) -> Option<Vec<Signature>>
    ensures { option_map (λ all. map plain_signature all.items) result
        ≡ signatures_in (plain_part part.entry) }
{
    match part {
        Part::Signatures(all) => Some(all),
        other => {
            drop(other);
            None
        }
    }
}

/// The steps that a part is, from the last one to the first.
pub(crate) fn steps_of<'t>(part: Part<'t>) -> Option<Vec<Step>>
    ensures { option_map (λ all. reverse (map plain_step all.items)) result
        ≡ steps_in (plain_part part.entry) }
{
    match part {
        Part::Steps(all) => Some(all),
        other => {
            drop(other);
            None
        }
    }
}

/// The sources that a part is, from the last one to the first, and the condition after them.
pub(crate) fn sources_of<'t>(part: Part<'t>) -> Option<(Vec<Source>, Option<Box<Expr>>)>
    ensures { option_map (λ all.
        (reverse (map plain_source all.0.items), option_map (λ is. plain is.value) all.1)) result
        ≡ sources_in (plain_part part.entry) }
{
    match part {
        Part::Sources(all, condition) => Some((all, condition)),
        other => {
            drop(other);
            None
        }
    }
}

/// The function that a part is.
pub(crate) fn function_of<'t>(part: Part<'t>) -> Option<Box<FunctionTree>>
    ensures { option_map (λ is. plain_function is.value) result
        ≡ function_in (plain_part part.entry) }
{
    match part {
        Part::Function(is) => Some(is),
        other => {
            drop(other);
            None
        }
    }
}

/// The types and functions that a part is.
pub(crate) fn program_of<'t>(part: Part<'t>) -> Option<(Vec<Declaration>, Vec<FunctionTree>)>
    ensures { option_map
        (λ all. (map plain_declaration all.0.items, map plain_function all.1.items)) result
        ≡ program_in (plain_part part.entry) }
{
    match part {
        Part::Program(types, functions) => Some((types, functions)),
        other => {
            drop(other);
            None
        }
    }
}
