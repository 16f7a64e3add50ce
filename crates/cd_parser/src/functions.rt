//! Branches, forms with branches, functions, and programs.
ghost use Rattle.std.specs.Prelude.{◌≡◌, map, IfOk};
ghost use Rattle.cd_program.specs.PlainExpr.{plain_function, plain_signature, plain_branch};
ghost use Rattle.cd_grammar.specs.ProgramActions as actions;
ghost use Rattle.cd_parser.specs.PlainParts.{plain_part};

use crate::expr_part::expr_part;
use crate::part::Part;
use crate::program_taken::{branches_of, expr_of, function_of, program_of, signatures_of};
use crate::taken::{names_of, token_of, tree_of};
use cd_program::expr::{Branch, ExprKind, FunctionTree, Signature};
use cd_program::operator::Form;
use cd_syntax::tokens::{Span, Token};
use cd_tree_actions::rows::{added, joined, row_of};
use cd_tree_actions::words::name_of;
use std::alloc::{AllocError, Global};

/// A pattern, and what is given where it takes.
pub(crate) fn branch<'t>(
    alloc: Global,
    pattern: Part<'t>,
    body: Part<'t>,
) -> Result<Part<'t>, AllocError>
    ensures { IfOk result (λ made.
        plain_part made ≡ actions.branch (plain_part pattern.entry) (plain_part body.entry)) }
{
    match tree_of(pattern).zip(expr_of(body)) {
        Some((pattern, body)) => {
            let branch = Branch::new(Box::into_inner(pattern), Box::into_inner(body));
            Ok(Part::Branches(row_of(alloc, branch)?))
        }
        None => Ok(Part::Junk),
    }
}

/// Branches, and those after them.
pub(crate) fn next_branches<'t>(branches: Part<'t>, more: Part<'t>) -> Result<Part<'t>, AllocError>
    ensures { IfOk result (λ made.
        plain_part made ≡ actions.next_branches (plain_part branches.entry)
        (plain_part more.entry)) }
{
    match branches_of(branches).zip(branches_of(more)) {
        Some((branches, more)) => Ok(Part::Branches(joined(branches, more)?)),
        None => Ok(Part::Junk),
    }
}

/// A form with branches.
pub(crate) fn matching<'t>(
    alloc: Global,
    form: Form,
    here: Span,
    value: Part<'t>,
    branches: Part<'t>,
) -> Result<Part<'t>, AllocError>
    ensures { IfOk result (λ made.
        plain_part made ≡ actions.matching form here (plain_part value.entry)
        (plain_part branches.entry)) }
{
    match expr_of(value).zip(branches_of(branches)) {
        Some((value, branches)) => expr_part(
            alloc,
            here,
            ExprKind::matching(form, value, branches),
        ),
        None => Ok(Part::Junk),
    }
}

/// A value for the variables of a pattern, and what they stand in.
pub(crate) fn let_in<'t>(
    alloc: Global,
    here: Span,
    pattern: Part<'t>,
    value: Part<'t>,
    rest: Part<'t>,
) -> Result<Part<'t>, AllocError>
    ensures { IfOk result (λ made.
        plain_part made ≡ actions.let_in here (plain_part pattern.entry) (plain_part value.entry)
        (plain_part rest.entry)) }
{
    match tree_of(pattern).zip(expr_of(value)).zip(expr_of(rest)) {
        Some(((pattern, value), rest)) => {
            expr_part(alloc, here, ExprKind::let_in(pattern, value, rest))
        }
        None => Ok(Part::Junk),
    }
}

/// A condition, and what is given where it is true and where it is false.
pub(crate) fn if_else<'t>(
    alloc: Global,
    here: Span,
    condition: Part<'t>,
    one: Part<'t>,
    other: Part<'t>,
) -> Result<Part<'t>, AllocError>
    ensures { IfOk result (λ made.
        plain_part made ≡ actions.if_else here (plain_part condition.entry) (plain_part one.entry)
        (plain_part other.entry)) }
{
    match expr_of(condition).zip(expr_of(one)).zip(expr_of(other)) {
        Some(((condition, one), other)) => {
            expr_part(alloc, here, ExprKind::if_else(condition, one, other))
        }
        None => Ok(Part::Junk),
    }
}

/// What a function takes, and what it gives for that.
pub(crate) fn signature<'t>(
    alloc: Global,
    takes: Part<'t>,
    gives: Part<'t>,
) -> Result<Part<'t>, AllocError>
    ensures { IfOk result (λ made.
        plain_part made ≡ actions.signature (plain_part takes.entry) (plain_part gives.entry)) }
{
    match tree_of(takes).zip(tree_of(gives)) {
        Some((takes, gives)) => {
            let arrow = Signature::new(Box::into_inner(takes), Box::into_inner(gives));
            Ok(Part::Signatures(row_of(alloc, arrow)?))
        }
        None => Ok(Part::Junk),
    }
}

/// Arrows of a function, and those after them.
pub(crate) fn next_signatures<'t>(
    signatures: Part<'t>,
    more: Part<'t>,
) -> Result<Part<'t>, AllocError>
    ensures { IfOk result (λ made.
        plain_part made ≡ actions.next_signatures (plain_part signatures.entry)
        (plain_part more.entry)) }
{
    match signatures_of(signatures).zip(signatures_of(more)) {
        Some((signatures, more)) => Ok(Part::Signatures(joined(signatures, more)?)),
        None => Ok(Part::Junk),
    }
}

/// A function without a name.
pub(crate) fn unnamed_function<'t>(
    alloc: Global,
    here: Span,
    word: Part<'t>,
    interface: Part<'t>,
    branches: Part<'t>,
) -> Result<Part<'t>, AllocError>
    ensures { IfOk result (λ made.
        plain_part made ≡ actions.unnamed_function here (plain_part word.entry)
        (plain_part interface.entry) (plain_part branches.entry)) }
{
    match token_of(word)
        .zip(signatures_of(interface))
        .zip(branches_of(branches))
    {
        Some(((word, interface), branches)) => {
            let is = FunctionTree::unnamed(word.span.from, interface, branches);
            expr_part(alloc, here, ExprKind::function(Box::new(alloc, is)?))
        }
        None => Ok(Part::Junk),
    }
}

// A function with a name.
fn named(
    alloc: Global,
    word: &Token,
    name: &Token,
    interface: Vec<Signature>,
    branches: Vec<Branch>,
) -> Result<Box<FunctionTree>, AllocError>
    ensures { IfOk result (λ is. plain_function is.value
        ≡ actions.named word.now name.now (map plain_signature interface.items)
        (map plain_branch branches.items)) }
{
    let name_at = name.span.from;
    let name = name_of(alloc, name)?;
    let is = FunctionTree::named(word.span.from, name, name_at, interface, branches);
    Ok(Box::new(alloc, is)?)
}

/// A function with a name, as an expression.
pub(crate) fn named_function<'t>(
    alloc: Global,
    here: Span,
    word: Part<'t>,
    name: Part<'t>,
    interface: Part<'t>,
    branches: Part<'t>,
) -> Result<Part<'t>, AllocError>
    ensures { IfOk result (λ made.
        plain_part made ≡ actions.named_function here (plain_part word.entry)
        (plain_part name.entry) (plain_part interface.entry) (plain_part branches.entry)) }
{
    let words = token_of(word).zip(token_of(name));
    let parts = signatures_of(interface).zip(branches_of(branches));
    match words.zip(parts) {
        Some(((word, name), (interface, branches))) => {
            let is = named(alloc, word, name, interface, branches)?;
            expr_part(alloc, here, ExprKind::function(is))
        }
        None => Ok(Part::Junk),
    }
}

/// A function that is declared.
pub(crate) fn declared_function<'t>(
    alloc: Global,
    word: Part<'t>,
    name: Part<'t>,
    interface: Part<'t>,
    branches: Part<'t>,
) -> Result<Part<'t>, AllocError>
    ensures { IfOk result (λ made.
        plain_part made ≡ actions.declared_function (plain_part word.entry) (plain_part name.entry)
        (plain_part interface.entry) (plain_part branches.entry)) }
{
    let words = token_of(word).zip(token_of(name));
    let parts = signatures_of(interface).zip(branches_of(branches));
    match words.zip(parts) {
        Some(((word, name), (interface, branches))) => {
            Ok(Part::Function(named(alloc, word, name, interface, branches)?))
        }
        None => Ok(Part::Junk),
    }
}

/// A program without declarations.
pub(crate) fn no_program<'t>(alloc: Global) -> Part<'t>
    ensures { plain_part result ≡ actions.no_program }
{
    Part::Program(Vec::new(alloc), Vec::new(alloc))
}

/// A program of a type.
pub(crate) fn first_type<'t>(alloc: Global, names: Part<'t>) -> Part<'t>
    ensures { plain_part result ≡ actions.first_type (plain_part names.entry) }
{
    match names_of(names) {
        Some(all) => Part::Program(all, Vec::new(alloc)),
        None => Part::Junk,
    }
}

/// A program of a function.
pub(crate) fn first_function<'t>(alloc: Global, is: Part<'t>) -> Result<Part<'t>, AllocError>
    ensures { IfOk result (λ made.
        plain_part made ≡ actions.first_function (plain_part is.entry)) }
{
    match function_of(is) {
        Some(is) => Ok(Part::Program(Vec::new(alloc), row_of(alloc, Box::into_inner(is))?)),
        None => Ok(Part::Junk),
    }
}

/// A program, and a type after it.
pub(crate) fn next_type<'t>(program: Part<'t>, names: Part<'t>) -> Result<Part<'t>, AllocError>
    ensures { IfOk result (λ made.
        plain_part made ≡ actions.next_type (plain_part program.entry) (plain_part names.entry)) }
{
    match program_of(program).zip(names_of(names)) {
        Some((program, names)) => {
            let (types, functions) = program;
            Ok(Part::Program(joined(types, names)?, functions))
        }
        None => Ok(Part::Junk),
    }
}

/// A program, and a function after it.
pub(crate) fn next_function<'t>(program: Part<'t>, is: Part<'t>) -> Result<Part<'t>, AllocError>
    ensures { IfOk result (λ made.
        plain_part made ≡ actions.next_function (plain_part program.entry) (plain_part is.entry)) }
{
    match program_of(program).zip(function_of(is)) {
        Some((program, is)) => {
            let (types, functions) = program;
            Ok(Part::Program(types, added(functions, Box::into_inner(is))?))
        }
        None => Ok(Part::Junk),
    }
}
