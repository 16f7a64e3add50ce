//! What rules of types and patterns make, to which parts of programs are nothing of use.
ghost use Rattle.std.specs.Prelude.{◌≡◌, IfOk};
ghost use Rattle.cd_tree_actions.specs.TreeMakes as makes;
ghost use Rattle.cd_parser.specs.PlainParts.{plain_part};

use crate::part::Part;
use crate::taken::tree_part_of;
use cd_grammar::make::{Five, Four, One, Three, Two};
use cd_syntax::tokens::Span;
use cd_tree_actions::made::{make_of_five, make_of_four, make_of_one};
use cd_tree_actions::pairs::make_of_two;
use cd_tree_actions::triples::make_of_three;
use std::alloc::{AllocError, Global};

/// What a rule makes of one part.
#[tactic(auto, using(cd_tree_actions::proofs::SameMakes::same_one))]
pub(crate) fn make_tree_of_one<'t>(
    alloc: Global,
    make: One,
    here: Span,
    a: Part<'t>,
) -> Result<Part<'t>, AllocError>
    ensures { IfOk result (λ made.
        plain_part made ≡ makes.made_of_one make here (plain_part a.entry)) }
{
    Ok(Part::Tree(make_of_one(alloc, make, here, tree_part_of(a))?))
}

/// The same of two.
#[tactic(auto, using(cd_tree_actions::proofs::SameMakes::same_two))]
pub(crate) fn make_tree_of_two<'t>(
    alloc: Global,
    make: Two,
    here: Span,
    a: Part<'t>,
    b: Part<'t>,
) -> Result<Part<'t>, AllocError>
    ensures { IfOk result (λ made. plain_part made
        ≡ makes.made_of_two make here (plain_part a.entry) (plain_part b.entry)) }
{
    let a = tree_part_of(a);
    let b = tree_part_of(b);
    Ok(Part::Tree(make_of_two(alloc, make, here, a, b)?))
}

/// The same of three.
#[tactic(auto, using(cd_tree_actions::proofs::SameMakes::same_three))]
pub(crate) fn make_tree_of_three<'t>(
    alloc: Global,
    make: Three,
    here: Span,
    a: Part<'t>,
    b: Part<'t>,
    c: Part<'t>,
) -> Result<Part<'t>, AllocError>
    ensures { IfOk result (λ made. plain_part made ≡ makes.made_of_three make here
        (plain_part a.entry) (plain_part b.entry) (plain_part c.entry)) }
{
    let a = tree_part_of(a);
    let b = tree_part_of(b);
    let c = tree_part_of(c);
    Ok(Part::Tree(make_of_three(alloc, make, here, a, b, c)?))
}

/// The same of four.
#[tactic(auto, using(cd_tree_actions::proofs::SameMakes::same_four))]
pub(crate) fn make_tree_of_four<'t>(
    alloc: Global,
    make: Four,
    here: Span,
    a: Part<'t>,
    b: Part<'t>,
    c: Part<'t>,
    d: Part<'t>,
) -> Result<Part<'t>, AllocError>
    ensures { IfOk result (λ made. plain_part made ≡ makes.made_of_four make here
        (plain_part a.entry) (plain_part b.entry) (plain_part c.entry) (plain_part d.entry)) }
{
    let a = tree_part_of(a);
    let b = tree_part_of(b);
    let c = tree_part_of(c);
    let d = tree_part_of(d);
    Ok(Part::Tree(make_of_four(alloc, make, here, a, b, c, d)?))
}

/// The same of five.
#[tactic(auto, using(cd_tree_actions::proofs::SameMakes::same_five))]
pub(crate) fn make_tree_of_five<'t>(
    alloc: Global,
    make: Five,
    here: Span,
    parts: (Part<'t>, Part<'t>, Part<'t>, Part<'t>, Part<'t>),
) -> Result<Part<'t>, AllocError>
    ensures { IfOk result (λ made. plain_part made ≡ makes.made_of_five make here
        (plain_part parts.entry.0) (plain_part parts.entry.1) (plain_part parts.entry.2)
        (plain_part parts.entry.3) (plain_part parts.entry.4)) }
{
    let (a, b, c, d, e) = parts;
    let a = tree_part_of(a);
    let b = tree_part_of(b);
    let c = tree_part_of(c);
    let d = tree_part_of(d);
    let e = tree_part_of(e);
    Ok(Part::Tree(make_of_five(alloc, make, here, (a, b, c, d, e))?))
}
