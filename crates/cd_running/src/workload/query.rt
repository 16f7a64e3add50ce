//! The types of the queries.
ghost use Rattle.std.specs.Prelude.{◌≡◌, IfOk};
ghost use Rattle.cd_syntax.specs.PlainTree.{plain};
ghost use Rattle.cd_running.specs.Inner.WorkQueries.{query_tree};

use cd_syntax::tokens::Span;
use cd_syntax::type_tree::{Post, RegKind, RegTree, Tree, TreeKind};
use std::alloc::{AllocError, Global};

/// The type `[(0--number)*]`, which the query of this number asks of.
pub(crate) fn query(alloc: Global, number: u32) -> Result<Tree, AllocError>
    ensures { IfOk result (λ tree. plain tree ≡ query_tree number) }
{
    let digits = format!(in alloc; "{number}")?.len();
    let place = Span {
        from: 2,
        to: 5 + digits,
    };
    let integers = Tree::new(place, TreeKind::ints(&Some(0), &Some(i128::from(number))));
    let item = RegTree::new(place, RegKind::item(Box::new(alloc, integers)?));
    let items = RegTree::new(
        Span {
            from: 1,
            to: 7 + digits,
        },
        RegKind::repeat(Box::new(alloc, item)?, Post::Star),
    );
    Ok(Tree::new(
        Span {
            from: 0,
            to: 8 + digits,
        },
        TreeKind::sequence(Box::new(alloc, items)?),
    ))
}
