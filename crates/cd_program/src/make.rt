//! Expressions from their parts.
ghost use Rattle.std.specs.Prelude.{◌≡◌, map, Some, None};
ghost use Rattle.cd_syntax.specs.PlainTree.{plain as plain_tree};
ghost use Rattle.cd_program.specs.Expr.{Constant as PlainConstant, Variable, Tuple, Sequence, Record, Xml};
ghost use Rattle.cd_program.specs.Expr.{Function, Apply, Let, If, Chain, Call, One, Splice, Run};
ghost use Rattle.cd_program.specs.Expr.{Operand, Without, Select, expr, function, of_form};
ghost use Rattle.cd_program.specs.Expr.{exprs_of, items_of, fields_of, tails_of, branches_of};
ghost use Rattle.cd_program.specs.PlainExpr.{plain, plain_kind, plain_item, plain_field};
ghost use Rattle.cd_program.specs.PlainExpr.{plain_tail, plain_branch, plain_function};
ghost use Rattle.cd_program.specs.PlainExpr.{plain_signature};

use crate::expr::{
    Branch, Branches, Expr, ExprKind, Exprs, FieldExpr, FieldExprs, FunctionTree, Interface, Item,
    Items, Signature, Tail, Tails,
};
use crate::operator::{BuiltIn, Form, Op};
use cd_syntax::constant::Constant;
use cd_syntax::name::Name;
use cd_syntax::tokens::Span;
use cd_syntax::type_tree::Tree;

impl Expr {
    /// What is written, and where.
    pub fn new(span: Span, kind: ExprKind) -> Expr
        ensures { plain result ≡ expr span (plain_kind kind) }
    {
        Expr { span, kind }
    }
}

impl ExprKind {
    /// A constant.
    pub fn constant(constant: Constant) -> ExprKind
        ensures { plain_kind result ≡ PlainConstant constant }
    {
        ExprKind::Constant(constant)
    }

    /// What this variable, or this function, stands for.
    pub fn variable(name: Name) -> ExprKind
        ensures { plain_kind result ≡ Variable name }
    {
        ExprKind::Variable(name)
    }

    /// The tuple of these expressions.
    pub fn tuple(all: Vec<Expr>) -> ExprKind
        ensures { plain_kind result ≡ Tuple (exprs_of (map plain all.items)) }
    {
        ExprKind::Tuple(Exprs { items: all })
    }

    /// The sequence of these items.
    pub fn sequence(all: Vec<Item>) -> ExprKind
        ensures { plain_kind result ≡ Sequence (items_of (map plain_item all.items)) }
    {
        ExprKind::Sequence(Items { items: all })
    }

    /// The record of these fields.
    pub fn record(all: Vec<FieldExpr>) -> ExprKind
        ensures { plain_kind result ≡ Record (fields_of (map plain_field all.items)) }
    {
        ExprKind::Record(FieldExprs { items: all })
    }

    /// The XML element of a tag, attributes and a content.
    pub fn xml(tag: Box<Expr>, attributes: Box<Expr>, content: Box<Expr>) -> ExprKind
        ensures { plain_kind result
            ≡ Xml (plain tag.value) (plain attributes.value) (plain content.value) }
    {
        ExprKind::Xml(tag, attributes, content)
    }

    /// A function.
    pub fn function(is: Box<FunctionTree>) -> ExprKind
        ensures { plain_kind result ≡ Function (plain_function is.value) }
    {
        ExprKind::Function(is)
    }

    /// The first of these applied to the others, one after the other.
    pub fn apply(all: Vec<Expr>) -> ExprKind
        ensures { plain_kind result ≡ Apply (exprs_of (map plain all.items)) }
    {
        ExprKind::Apply(Exprs { items: all })
    }

    /// A form with branches.
    pub fn matching(form: Form, value: Box<Expr>, branches: Vec<Branch>) -> ExprKind
        ensures { plain_kind result
            ≡ of_form form (plain value.value) (branches_of (map plain_branch branches.items)) }
    {
        let branches = Branches { items: branches };
        match form {
            Form::Match => ExprKind::Match(value, branches),
            Form::Try => ExprKind::Try(value, branches),
            Form::Map => ExprKind::Map(value, branches),
            Form::Transform => ExprKind::Transform(value, branches),
        }
    }

    /// The rest, with the variables that the pattern has of the value.
    pub fn let_in(pattern: Box<Tree>, value: Box<Expr>, rest: Box<Expr>) -> ExprKind
        ensures { plain_kind result
            ≡ Let (plain_tree pattern.value) (plain value.value) (plain rest.value) }
    {
        ExprKind::Let(pattern, value, rest)
    }

    /// The one where the condition is true, else the other.
    pub fn if_else(condition: Box<Expr>, one: Box<Expr>, other: Box<Expr>) -> ExprKind
        ensures { plain_kind result
            ≡ If (plain condition.value) (plain one.value) (plain other.value) }
    {
        ExprKind::If(condition, one, other)
    }

    /// Operators of one level after the first operand.
    pub fn chain(first: Box<Expr>, tails: Vec<Tail>) -> ExprKind
        ensures { plain_kind result
            ≡ Chain (plain first.value) (tails_of (map plain_tail tails.items)) }
    {
        ExprKind::Chain(first, Tails { items: tails })
    }

    /// What the word says of its operand.
    pub fn call(word: BuiltIn, operand: Box<Expr>) -> ExprKind
        ensures { plain_kind result ≡ Call word (plain operand.value) }
    {
        ExprKind::Call(word, operand)
    }
}

impl Item {
    /// One item.
    pub fn one(is: Box<Expr>) -> Item
        ensures { plain_item result ≡ One (plain is.value) }
    {
        Item::One(is)
    }

    /// The items of a sequence.
    pub fn splice(is: Box<Expr>) -> Item
        ensures { plain_item result ≡ Splice (plain is.value) }
    {
        Item::Splice(is)
    }

    /// Characters, each an item.
    pub fn run(characters: Name) -> Item
        ensures { plain_item result ≡ Run characters }
    {
        Item::Run(characters)
    }
}

impl FieldExpr {
    /// A field of a record, whose label stands at this byte.
    pub fn new(label: Name, at: usize, expr: Expr) -> FieldExpr
        ensures { plain_field result ≡ record { label = label; at = at; expr = plain expr } }
    {
        FieldExpr { label, at, expr }
    }
}

impl Tail {
    /// An operator between two operands.
    pub fn operand(op: Op, is: Box<Expr>) -> Tail
        ensures { plain_tail result ≡ Operand op (plain is.value) }
    {
        Tail::Operand(op, is)
    }

    /// The record without this field.
    pub fn without(label: Name) -> Tail
        ensures { plain_tail result ≡ Without label }
    {
        Tail::Without(label)
    }

    /// This field.
    pub fn select(label: Name) -> Tail
        ensures { plain_tail result ≡ Select label }
    {
        Tail::Select(label)
    }
}

impl Branch {
    /// A branch.
    pub fn new(pattern: Tree, body: Expr) -> Branch
        ensures { plain_branch result
            ≡ record { pattern = plain_tree pattern; body = plain body } }
    {
        Branch { pattern, body }
    }
}

impl Signature {
    /// An arrow of a function.
    pub fn new(takes: Tree, gives: Tree) -> Signature
        ensures { plain_signature result
            ≡ record { takes = plain_tree takes; gives = plain_tree gives } }
    {
        Signature { takes, gives }
    }
}

impl FunctionTree {
    /// A function whose word `fun` stands at this byte, without a name.
    pub fn unnamed(at: usize, interface: Vec<Signature>, branches: Vec<Branch>) -> FunctionTree
        ensures { plain_function result
            ≡ function at None at (map plain_signature interface.items)
            (branches_of (map plain_branch branches.items)) }
    {
        FunctionTree {
            at,
            name: None,
            name_at: at,
            interface: Interface { items: interface },
            branches: Branches { items: branches },
        }
    }

    /// The same with a name, which stands at a byte of its own.
    pub fn named(
        at: usize,
        name: Name,
        name_at: usize,
        interface: Vec<Signature>,
        branches: Vec<Branch>,
    ) -> FunctionTree
        ensures { plain_function result
            ≡ function at (Some name) name_at (map plain_signature interface.items)
            (branches_of (map plain_branch branches.items)) }
    {
        FunctionTree {
            at,
            name: Some(name),
            name_at,
            interface: Interface { items: interface },
            branches: Branches { items: branches },
        }
    }
}
