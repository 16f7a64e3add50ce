//! What rules of types and patterns make of one part, of four and of five.
ghost use Rattle.std.specs.Prelude.{◌≡◌, IfOk};
ghost use Rattle.cd_grammar.specs.Parts.{Junk};
ghost use Rattle.cd_tree_actions.specs.TreeMakes as makes;
ghost use Rattle.cd_tree_actions.specs.PlainTreeParts.{plain_tree_part};

use crate::constants::{any, atom, character, named, number, text};
use crate::names::{name, no_file};
use crate::part::TreePart;
use crate::patterns::{constant, default, variable};
use crate::records::{fields, label, others, xml, xml_with};
use crate::regular::{alternatives, in_turn};
use crate::sequences::{item, run};
use crate::trees::{arrows, meet, union};
use cd_grammar::make::{Five, Four, One};
use cd_syntax::tokens::Span;
use std::alloc::{AllocError, Global};

/// What a rule makes of one part.
///
/// # Errors
///
/// Want of memory.
pub fn make_of_one<'t>(
    alloc: Global,
    make: One,
    here: Span,
    a: TreePart<'t>,
) -> Result<TreePart<'t>, AllocError>
    ensures { IfOk result (λ made.
        plain_tree_part made ≡ makes.made_of_one make here (plain_tree_part a.entry)) }
{
    match make {
        One::Union => union(alloc, here, a),
        One::Arrows => arrows(alloc, here, a),
        One::Meet => meet(alloc, here, a),
        One::Number => number(alloc, here, a),
        One::Character => character(alloc, here, a),
        One::Text => text(alloc, here, a),
        One::Atom => atom(alloc, here, a),
        One::Named => named(alloc, here, a),
        One::Label => label(alloc, here, a),
        One::Attributes => fields(alloc, here, a),
        One::Item => item(alloc, a),
        One::Run => run(alloc, here, a),
        One::Alternatives => alternatives(alloc, here, a),
        One::InTurn => in_turn(alloc, here, a),
        One::Variable => variable(alloc, here, a),
        One::Constant => constant(alloc, a),
        One::Any | One::Others | One::Mark(_) | One::NoFile => {
            drop(a);
            of_none(alloc, make, here)
        }
        _ => {
            drop(a);
            Ok(TreePart::Junk)
        }
    }
}

// Of one part which is a token.
fn of_none<'t>(alloc: Global, make: One, here: Span) -> Result<TreePart<'t>, AllocError>
    ensures { IfOk result (λ made. plain_tree_part made ≡ makes.made_of_one make here Junk) }
{
    match make {
        One::Any => any(alloc, here),
        One::Others => Ok(others(alloc)),
        One::Mark(mark) => Ok(TreePart::Mark(mark)),
        One::NoFile => Ok(no_file(alloc)),
        _ => Ok(TreePart::Junk),
    }
}

/// The same of four.
///
/// # Errors
///
/// Want of memory.
pub fn make_of_four<'t>(
    alloc: Global,
    make: Four,
    here: Span,
    a: TreePart<'t>,
    b: TreePart<'t>,
    c: TreePart<'t>,
    d: TreePart<'t>,
) -> Result<TreePart<'t>, AllocError>
    ensures { IfOk result (λ made.
        plain_tree_part made ≡ makes.made_of_four make here (plain_tree_part a.entry)
        (plain_tree_part b.entry) (plain_tree_part c.entry) (plain_tree_part d.entry)) }
{
    drop(a);
    match make {
        Four::Declaration => {
            drop(c);
            name(alloc, b, d)
        }
        Four::Xml => xml(alloc, here, b, c, d),
        _ => {
            drop(b);
            drop(c);
            drop(d);
            Ok(TreePart::Junk)
        }
    }
}

/// The same of five.
///
/// # Errors
///
/// Want of memory.
pub fn make_of_five<'t>(
    alloc: Global,
    make: Five,
    here: Span,
    parts: (
        TreePart<'t>,
        TreePart<'t>,
        TreePart<'t>,
        TreePart<'t>,
        TreePart<'t>,
    ),
) -> Result<TreePart<'t>, AllocError>
    ensures { IfOk result (λ made.
        plain_tree_part made ≡ makes.made_of_five make here (plain_tree_part parts.entry.0)
        (plain_tree_part parts.entry.1) (plain_tree_part parts.entry.2)
        (plain_tree_part parts.entry.3) (plain_tree_part parts.entry.4)) }
{
    let (a, b, c, d, e) = parts;
    drop(a);
    match make {
        Five::XmlWith => {
            drop(d);
            xml_with(alloc, here, b, c, e)
        }
        Five::Default => {
            drop(c);
            drop(e);
            default(alloc, here, b, d)
        }
        _ => {
            drop(b);
            drop(c);
            drop(d);
            drop(e);
            Ok(TreePart::Junk)
        }
    }
}
