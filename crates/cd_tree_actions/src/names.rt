//! Declarations.
ghost use Rattle.std.specs.Prelude.{◌≡◌, IfOk};
ghost use Rattle.cd_syntax.specs.TypeTree.{NoDeclaration};
ghost use Rattle.cd_grammar.specs.Parts.{AFile};
ghost use Rattle.cd_grammar.specs.Actions as actions;
ghost use Rattle.cd_tree_actions.specs.PlainTreeParts.{plain_tree_part};

use crate::part::TreePart;
use crate::rows::{joined, row_of};
use crate::taken::{names_of, token_of, tree_of};
use crate::words::name_of;
use cd_syntax::type_tree::{Declaration, Declarations};
use std::alloc::{AllocError, Global};

/// A name with its tree.
pub(crate) fn name<'t>(
    alloc: Global,
    word: TreePart<'t>,
    is: TreePart<'t>,
) -> Result<TreePart<'t>, AllocError>
    ensures { IfOk result (λ made.
        plain_tree_part made ≡ actions.name (plain_tree_part word.entry)
        (plain_tree_part is.entry)) }
{
    match token_of(word).zip(tree_of(is)) {
        Some((word, is)) => {
            let name = name_of(alloc, word)?;
            let declared = Declaration::new(name, word.span.from, Box::into_inner(is));
            Ok(TreePart::Names(row_of(alloc, declared)?))
        }
        None => Ok(TreePart::Junk),
    }
}

/// Names, and those after them.
pub(crate) fn next_names<'t>(
    names: TreePart<'t>,
    more: TreePart<'t>,
) -> Result<TreePart<'t>, AllocError>
    ensures { IfOk result (λ made.
        plain_tree_part made ≡ actions.next_names (plain_tree_part names.entry)
        (plain_tree_part more.entry)) }
{
    match names_of(names).zip(names_of(more)) {
        Some((names, more)) => Ok(TreePart::Names(joined(names, more)?)),
        None => Ok(TreePart::Junk),
    }
}

/// A file of declarations.
pub(crate) fn file<'t>(names: TreePart<'t>) -> TreePart<'t>
    ensures { plain_tree_part result ≡ actions.file (plain_tree_part names.entry) }
{
    match names_of(names) {
        Some(all) => TreePart::File(Declarations::of(all)),
        None => TreePart::Junk,
    }
}

/// A file without declarations.
pub(crate) fn no_file<'t>(alloc: Global) -> TreePart<'t>
    ensures { plain_tree_part result ≡ AFile NoDeclaration }
{
    TreePart::File(Declarations::of(Vec::new(alloc)))
}
