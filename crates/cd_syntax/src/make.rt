//! Trees from their parts.
ghost use Rattle.std.specs.Prelude.{◌≡◌, map};
ghost use Rattle.cd_syntax.specs.TypeTree.{tree as plain_tree, Builtin, Ints, Chars, Atom, Text};
ghost use Rattle.cd_syntax.specs.TypeTree.{Tuple, Arrows, Union, Meet, Sequence, Record, Xml};
ghost use Rattle.cd_syntax.specs.TypeTree.{Named, Where, regular as plain_regular_tree, Nothing};
ghost use Rattle.cd_syntax.specs.TypeTree.{Item, Seq, Alt, Repeat, trees_of, signs_of, fields_of};
ghost use Rattle.cd_syntax.specs.TypeTree.{declarations_of, regulars_of};
ghost use Rattle.cd_syntax.specs.PlainTree.{plain, plain_kind, plain_signed, plain_field};
ghost use Rattle.cd_syntax.specs.PlainTree.{plain_declaration, plain_regular, plain_regular_kind};
ghost use Rattle.cd_syntax.specs.PlainTree.{plain_rest};
ghost use Rattle.cd_syntax.specs.TypeTree.{Closed, Open, Typed};

use crate::builtin::BuiltinName;
use crate::name::Name;
use crate::tokens::Span;
use crate::type_tree::{
    Declaration, Declarations, FieldTree, FieldTrees, Post, RegKind, RegTree, RegTrees, Rest,
    Signed, SignedTree, Tree, TreeKind, Trees,
};

impl Tree {
    /// What is written, and where.
    pub fn new(span: Span, kind: TreeKind) -> Tree
        ensures { plain result ≡ plain_tree span (plain_kind kind) }
    {
        Tree { span, kind }
    }
}

impl TreeKind {
    /// A type that is built in.
    pub fn builtin(name: BuiltinName) -> TreeKind
        ensures { plain_kind result ≡ Builtin name }
    {
        TreeKind::Builtin(name)
    }

    /// The integers from the one bound to the other, as far as they are there.
    pub fn ints(low: &Option<i128>, high: &Option<i128>) -> TreeKind
        ensures { plain_kind result ≡ Ints low.now high.now }
    {
        TreeKind::Ints(*low, *high)
    }

    /// The characters from the one to the other.
    pub fn chars(low: char, high: char) -> TreeKind
        ensures { plain_kind result ≡ Chars low high }
    {
        TreeKind::Chars(low, high)
    }

    /// The atom of this name.
    pub fn atom(name: Name) -> TreeKind
        ensures { plain_kind result ≡ Atom name }
    {
        TreeKind::Atom(name)
    }

    /// The sequence of these characters.
    pub fn text(characters: Name) -> TreeKind
        ensures { plain_kind result ≡ Text characters }
    {
        TreeKind::Text(characters)
    }

    /// The tuple of these trees.
    pub fn tuple(trees: Vec<Tree>) -> TreeKind
        ensures { plain_kind result ≡ Tuple (trees_of (map plain trees.items)) }
    {
        TreeKind::Tuple(Trees::of(trees))
    }

    /// The chain of arrows between these trees.
    pub fn arrows(trees: Vec<Tree>) -> TreeKind
        ensures { plain_kind result ≡ Arrows (trees_of (map plain trees.items)) }
    {
        TreeKind::Arrows(Trees::of(trees))
    }

    /// The union of these trees.
    pub fn union(trees: Vec<Tree>) -> TreeKind
        ensures { plain_kind result ≡ Union (trees_of (map plain trees.items)) }
    {
        TreeKind::Union(Trees::of(trees))
    }

    /// What the first tree holds, and each of the others holds or doesn't hold.
    pub fn meet(first: Box<Tree>, others: Vec<SignedTree>) -> TreeKind
        ensures { plain_kind result
            ≡ Meet (plain first.value) (signs_of (map plain_signed others.items)) }
    {
        TreeKind::Meet(first, Signed { items: others })
    }

    /// The sequences whose items fit.
    pub fn sequence(items: Box<RegTree>) -> TreeKind
        ensures { plain_kind result ≡ Sequence (plain_regular items.value) }
    {
        TreeKind::Sequence(items)
    }

    /// The XML elements of a tag, attributes and a content.
    pub fn xml(tag: Box<Tree>, attributes: Box<Tree>, content: Box<Tree>) -> TreeKind
        ensures { plain_kind result
            ≡ Xml (plain tag.value) (plain attributes.value) (plain content.value) }
    {
        TreeKind::Xml(tag, attributes, content)
    }

    /// The records with these fields, and with what the rest allows beside them.
    pub fn record(fields: Vec<FieldTree>, rest: Rest) -> TreeKind
        ensures { plain_kind result
            ≡ Record (fields_of (map plain_field fields.items)) (plain_rest rest) }
    {
        TreeKind::Record(FieldTrees::of(fields), rest)
    }

    /// What the declaration of this name says.
    pub fn named(name: Name) -> TreeKind
        ensures { plain_kind result ≡ Named name }
    {
        TreeKind::Named(name)
    }

    /// A type under its own declarations.
    pub fn where_names(body: Box<Tree>, declarations: Vec<Declaration>) -> TreeKind
        ensures { plain_kind result
            ≡ Where (plain body.value)
            (declarations_of (map plain_declaration declarations.items)) }
    {
        TreeKind::Where(body, Declarations::of(declarations))
    }
}

impl SignedTree {
    /// A tree after `&`, or with false after `\`.
    pub fn new(kept: bool, tree: Tree) -> SignedTree
        ensures { plain_signed result ≡ record { kept = kept; tree = plain tree } }
    {
        SignedTree { kept, tree }
    }
}

impl Rest {
    /// No other fields.
    pub fn closed() -> Rest
        ensures { plain_rest result ≡ Closed }
    {
        Rest::Closed
    }

    /// Any other fields.
    pub fn open() -> Rest
        ensures { plain_rest result ≡ Open }
    {
        Rest::Open
    }

    /// Other fields of this type.
    pub fn typed(tree: Box<Tree>) -> Rest
        ensures { plain_rest result ≡ Typed (plain tree.value) }
    {
        Rest::Typed(tree)
    }
}

impl FieldTree {
    /// A field of a record, whose label stands at this byte.
    pub fn new(label: Name, at: usize, optional: bool, tree: Tree) -> FieldTree
        ensures { plain_field result
            ≡ record { label = label; at = at; optional = optional; tree = plain tree } }
    {
        FieldTree {
            label,
            at,
            optional,
            tree,
        }
    }
}

impl Declaration {
    /// A declaration of a type, whose name stands at this byte.
    pub fn new(name: Name, at: usize, tree: Tree) -> Declaration
        ensures { plain_declaration result ≡ record { name = name; at = at; tree = plain tree } }
    {
        Declaration { name, at, tree }
    }
}

impl RegTree {
    /// What is written, and where.
    pub fn new(span: Span, kind: RegKind) -> RegTree
        ensures { plain_regular result ≡ plain_regular_tree span (plain_regular_kind kind) }
    {
        RegTree { span, kind }
    }
}

impl RegKind {
    /// No item.
    pub fn nothing() -> RegKind
        ensures { plain_regular_kind result ≡ Nothing }
    {
        RegKind::Nothing
    }

    /// One item of this type.
    pub fn item(tree: Box<Tree>) -> RegKind
        ensures { plain_regular_kind result ≡ Item (plain tree.value) }
    {
        RegKind::Item(tree)
    }

    /// One after the other.
    pub fn seq(all: Vec<RegTree>) -> RegKind
        ensures { plain_regular_kind result ≡ Seq (regulars_of (map plain_regular all.items)) }
    {
        RegKind::Seq(RegTrees::of(all))
    }

    /// One of them.
    pub fn alt(all: Vec<RegTree>) -> RegKind
        ensures { plain_regular_kind result ≡ Alt (regulars_of (map plain_regular all.items)) }
    {
        RegKind::Alt(RegTrees::of(all))
    }

    /// As often as the postfix says.
    pub fn repeat(one: Box<RegTree>, post: Post) -> RegKind
        ensures { plain_regular_kind result ≡ Repeat (plain_regular one.value) post }
    {
        RegKind::Repeat(one, post)
    }
}
