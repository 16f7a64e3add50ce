//! What a part of a type or a pattern is, where it is of one kind.
ghost use Rattle.std.specs.Prelude.{◌≡◌, map};
ghost use Rattle.std.specs.Option.{option_map};
ghost use Rattle.cd_syntax.specs.PlainTree.{plain, plain_declaration};
ghost use Rattle.cd_grammar.specs.Parts.{token_in, tree_in, names_in};
ghost use Rattle.cd_tree_actions.specs.PlainTreeParts.{plain_tree_part};
ghost use Rattle.cd_tree_actions.specs.OfTypes.{of_types};
ghost use Rattle.cd_parser.specs.PlainParts.{plain_part};

use crate::part::Part;
use cd_syntax::tokens::Token;
use cd_syntax::type_tree::{Declaration, Tree};
use cd_tree_actions::part::TreePart;
use cd_tree_actions::taken;

/// What a part is to a rule of types or patterns.
#[tactic(auto, using(cd_tree_actions::proofs::SameMakes::kept))]
pub(crate) fn tree_part_of<'t>(part: Part<'t>) -> TreePart<'t>
    ensures { plain_tree_part result ≡ of_types (plain_part part.entry) }
{
    match part {
        Part::Tree(is) => is,
        other => {
            drop(other);
            TreePart::Junk
        }
    }
}

/// The token that a part is.
#[tactic(auto, using(cd_tree_actions::proofs::SameMakes::token_same))]
pub(crate) fn token_of<'t>(part: Part<'t>) -> Option<&'t Token>
    ensures { option_map (λ is. is.now) result ≡ token_in (plain_part part.entry) }
{
    taken::token_of(tree_part_of(part))
}

/// The tree that a part is.
#[tactic(auto, using(cd_tree_actions::proofs::SameMakes::tree_same))]
pub(crate) fn tree_of<'t>(part: Part<'t>) -> Option<Box<Tree>>
    ensures { option_map (λ is. plain is.value) result ≡ tree_in (plain_part part.entry) }
{
    taken::tree_of(tree_part_of(part))
}

/// The declarations that a part is.
#[tactic(auto, using(cd_tree_actions::proofs::SameMakes::names_same))]
pub(crate) fn names_of<'t>(part: Part<'t>) -> Option<Vec<Declaration>>
    ensures { option_map (λ all. map plain_declaration all.items) result
        ≡ names_in (plain_part part.entry) }
{
    taken::names_of(tree_part_of(part))
}
