//! The members of lists.
ghost use Rattle.std.specs.Prelude.{◌≡◌, map};
ghost use Rattle.cd_program.specs.Expr.{exprs_of, items_of, fields_of, tails_of, branches_of};
ghost use Rattle.cd_program.specs.PlainExpr.{plain, plain_exprs, plain_item, plain_items};
ghost use Rattle.cd_program.specs.PlainExpr.{plain_field, plain_fields, plain_tail, plain_tails};
ghost use Rattle.cd_program.specs.PlainExpr.{plain_branch, plain_branches};
ghost use Rattle.cd_program.specs.PlainExpr.{plain_signature, plain_interface};

use crate::expr::{
    Branch, Branches, Expr, Exprs, FieldExpr, FieldExprs, Interface, Item, Items, Signature, Tail,
    Tails,
};

impl Exprs {
    /// Its expressions.
    pub fn items(&self) -> &[Expr]
        ensures { exprs_of (map plain result.now) ≡ plain_exprs self.now }
    {
        self.items.as_slice()
    }
}

impl Items {
    /// Its items.
    pub fn items(&self) -> &[Item]
        ensures { items_of (map plain_item result.now) ≡ plain_items self.now }
    {
        self.items.as_slice()
    }
}

impl FieldExprs {
    /// Its fields.
    pub fn items(&self) -> &[FieldExpr]
        ensures { fields_of (map plain_field result.now) ≡ plain_fields self.now }
    {
        self.items.as_slice()
    }
}

impl Tails {
    /// Its operators with their right sides.
    pub fn items(&self) -> &[Tail]
        ensures { tails_of (map plain_tail result.now) ≡ plain_tails self.now }
    {
        self.items.as_slice()
    }
}

impl Branches {
    /// Its branches.
    pub fn items(&self) -> &[Branch]
        ensures { branches_of (map plain_branch result.now) ≡ plain_branches self.now }
    {
        self.items.as_slice()
    }
}

impl Interface {
    /// Its arrows.
    pub fn items(&self) -> &[Signature]
        ensures { map plain_signature result.now ≡ plain_interface self.now }
    {
        self.items.as_slice()
    }
}
