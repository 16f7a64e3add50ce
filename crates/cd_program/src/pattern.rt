//! Trees that stand in patterns alone.
ghost use Rattle.std.specs.Prelude.{◌≡◌};
ghost use Rattle.cd_syntax.specs.TypeTree.{Variable, Default, Capture};
ghost use Rattle.cd_syntax.specs.PlainTree.{plain_kind, plain_regular, plain_regular_kind};

use cd_syntax::constant::Constant;
use cd_syntax::name::Name;
use cd_syntax::type_tree::{RegKind, RegTree, TreeKind};

/// A variable, which is what it takes.
pub fn variable(name: Name) -> TreeKind
    ensures { plain_kind result ≡ Variable name }
{
    TreeKind::Variable(name)
}

/// A variable that is this constant.
pub fn default(name: Name, constant: Constant) -> TreeKind
    ensures { plain_kind result ≡ Default name constant }
{
    TreeKind::Default(name, constant)
}

/// Items that a variable has as a sequence.
pub fn capture(name: Name, items: Box<RegTree>) -> RegKind
    ensures { plain_regular_kind result ≡ Capture name (plain_regular items.value) }
{
    RegKind::Capture(name, items)
}
