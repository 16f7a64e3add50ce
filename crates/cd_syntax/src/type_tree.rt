ghost use Rattle.std.specs.Prelude.{◌≡◌, map};
ghost use Rattle.cd_syntax.specs.TypeTree.{trees_of, signs_of, fields_of, declarations_of};
ghost use Rattle.cd_syntax.specs.TypeTree.{regulars_of};
ghost use Rattle.cd_syntax.specs.PlainTree.{plain, plain_trees, plain_signed, plain_signs};
ghost use Rattle.cd_syntax.specs.PlainTree.{plain_field, plain_fields, plain_declaration};
ghost use Rattle.cd_syntax.specs.PlainTree.{plain_declarations, plain_regular, plain_regulars};

use crate::builtin::BuiltinName;
use crate::constant::Constant;
use crate::name::Name;
use crate::tokens::Span;

/// A type or a pattern as it is written, and where. A chain at one level is one node, whatever its
/// length.
#[cycle(type_tree)]
#[derive(Drop)]
pub struct Tree {
    /// From the first character of its first token to the end of its last one.
    pub span: Span,
    /// What it is.
    pub kind: TreeKind,
}

/// What a type or a pattern is.
#[cycle(type_tree)]
#[derive(Drop)]
pub enum TreeKind {
    /// A type that is built in.
    Builtin(BuiltinName),
    /// The integers from the one bound to the other, both among them. A bound that is not there is
    /// the least or the greatest integer.
    Ints(Option<i128>, Option<i128>),
    /// The characters from the one to the other, both among them.
    Chars(char, char),
    /// The atom of this name.
    Atom(Name),
    /// The sequence of these characters.
    Text(Name),
    /// The pairs of the first and the tuple of the others, or the other where there is one.
    Tuple(Trees),
    /// The functions from the first to the arrows of the others, or to the other where there is
    /// one.
    Arrows(Trees),
    /// What one of them holds.
    Union(Trees),
    /// What the first holds, and each of the others holds or doesn't hold.
    Meet(Box<Tree>, Signed),
    /// The sequences whose items fit.
    Sequence(Box<RegTree>),
    /// The records with these fields, and with what the rest allows beside them.
    Record(FieldTrees, Rest),
    /// The XML elements of a tag, attributes and a content.
    Xml(Box<Tree>, Box<Tree>, Box<Tree>),
    /// What the declaration of this name says.
    Named(Name),
    /// A type under its own declarations.
    Where(Box<Tree>, Declarations),
    /// A variable of a pattern.
    Variable(Name),
    /// A variable of a pattern that is this constant.
    Default(Name, Constant),
}

/// A list of trees.
#[cycle(type_tree)]
#[derive(Drop)]
pub struct Trees {
    pub(crate) items: Vec<Tree>,
}

/// A list of trees with their signs.
#[cycle(type_tree)]
#[derive(Drop)]
pub struct Signed {
    pub(crate) items: Vec<SignedTree>,
}

/// A tree after `&` or `\`.
#[cycle(type_tree)]
#[derive(Drop)]
pub struct SignedTree {
    /// `&` and not `\`.
    pub kept: bool,
    /// The tree.
    pub tree: Tree,
}

/// A list of fields.
#[cycle(type_tree)]
#[derive(Drop)]
pub struct FieldTrees {
    pub(crate) items: Vec<FieldTree>,
}

/// A field of a record.
#[cycle(type_tree)]
#[derive(Drop)]
pub struct FieldTree {
    /// Its label.
    pub label: Name,
    /// Where the label stands.
    pub at: usize,
    /// Whether it may be absent.
    pub optional: bool,
    /// What it holds.
    pub tree: Tree,
}

/// What stands after the fields of a record type.
#[cycle(type_tree)]
#[derive(Drop)]
pub enum Rest {
    /// Nothing: no other fields.
    Closed,
    /// `..`: any other fields.
    Open,
    /// `_=?` and a type: other fields of this type.
    Typed(Box<Tree>),
}

/// A list of declarations.
#[cycle(type_tree)]
#[derive(Drop)]
pub struct Declarations {
    pub(crate) items: Vec<Declaration>,
}

/// A declaration of a type.
#[cycle(type_tree)]
#[derive(Drop)]
pub struct Declaration {
    /// Its name.
    pub name: Name,
    /// Where the name stands.
    pub at: usize,
    /// What it means.
    pub tree: Tree,
}

/// A regular expression of a sequence, and where it stands.
#[cycle(type_tree)]
#[derive(Drop)]
pub struct RegTree {
    /// From the first character of its first token to the end of its last one.
    pub span: Span,
    /// What it is.
    pub kind: RegKind,
}

/// What a regular expression is.
#[cycle(type_tree)]
#[derive(Drop)]
pub enum RegKind {
    /// No item.
    Nothing,
    /// One item.
    Item(Box<Tree>),
    /// One after the other.
    Seq(RegTrees),
    /// One of them.
    Alt(RegTrees),
    /// As often as the postfix says.
    Repeat(Box<RegTree>, Post),
    /// Captured by a variable.
    Capture(Name, Box<RegTree>),
}

/// A list of regular expressions.
#[cycle(type_tree)]
#[derive(Drop)]
pub struct RegTrees {
    pub(crate) items: Vec<RegTree>,
}

/// A postfix of a regular expression.
#[derive(Clone, Copy, PartialEq, Eq)]
pub enum Post {
    /// `*`: any number of times, as often as can be.
    Star,
    /// `+`: once at least, as often as can be.
    Plus,
    /// `?`: not at all or once, once where that can be.
    Opt,
    /// `*?`: any number of times, as seldom as can be.
    LazyStar,
    /// `+?`: once at least, as seldom as can be.
    LazyPlus,
    /// `??`: not at all or once, not at all where that can be.
    LazyOpt,
}

impl Trees {
    /// The list of these trees.
    pub fn of(items: Vec<Tree>) -> Trees
        ensures { plain_trees result ≡ trees_of (map plain items.items) }
    {
        Trees { items }
    }

    /// Its trees.
    pub fn items(&self) -> &[Tree]
        ensures { trees_of (map plain result.now) ≡ plain_trees self.now }
    {
        self.items.as_slice()
    }
}

impl Signed {
    /// The list of these trees with their signs.
    pub fn of(items: Vec<SignedTree>) -> Signed
        ensures { plain_signs result ≡ signs_of (map plain_signed items.items) }
    {
        Signed { items }
    }

    /// Its trees with their signs.
    pub fn items(&self) -> &[SignedTree]
        ensures { signs_of (map plain_signed result.now) ≡ plain_signs self.now }
    {
        self.items.as_slice()
    }
}

impl FieldTrees {
    /// The list of these fields.
    pub fn of(items: Vec<FieldTree>) -> FieldTrees
        ensures { plain_fields result ≡ fields_of (map plain_field items.items) }
    {
        FieldTrees { items }
    }

    /// Its fields.
    pub fn items(&self) -> &[FieldTree]
        ensures { fields_of (map plain_field result.now) ≡ plain_fields self.now }
    {
        self.items.as_slice()
    }
}

impl Declarations {
    /// The list of these declarations.
    pub fn of(items: Vec<Declaration>) -> Declarations
        ensures { plain_declarations result ≡ declarations_of (map plain_declaration items.items) }
    {
        Declarations { items }
    }

    /// Its declarations.
    pub fn items(&self) -> &[Declaration]
        ensures { declarations_of (map plain_declaration result.now) ≡ plain_declarations self.now }
    {
        self.items.as_slice()
    }
}

impl RegTrees {
    /// The list of these regular expressions.
    pub fn of(items: Vec<RegTree>) -> RegTrees
        ensures { plain_regulars result ≡ regulars_of (map plain_regular items.items) }
    {
        RegTrees { items }
    }

    /// Its regular expressions.
    pub fn items(&self) -> &[RegTree]
        ensures { regulars_of (map plain_regular result.now) ≡ plain_regulars self.now }
    {
        self.items.as_slice()
    }
}
