ghost use Rattle.std.specs.Prelude.{◌≡◌, map};
ghost use Rattle.cd_program.specs.PlainExpr.{plain_function};
ghost use Rattle.cd_program.specs.PlainProgram.{plain_functions};

use crate::expr::FunctionTree;
use cd_syntax::type_tree::Declarations;

/// A program.
#[derive(Drop)]
pub struct Program {
    /// Its types.
    pub types: Declarations,
    /// Its functions.
    pub functions: FunctionTrees,
    /// Where its text ends.
    pub end: usize,
}

/// A list of functions.
#[derive(Drop)]
pub struct FunctionTrees {
    pub(crate) items: Vec<FunctionTree>,
}

impl FunctionTrees {
    /// The list of these functions.
    pub fn of(items: Vec<FunctionTree>) -> FunctionTrees
        ensures { plain_functions result ≡ map plain_function items.items }
    {
        FunctionTrees { items }
    }

    /// Its functions.
    pub fn items(&self) -> &[FunctionTree]
        ensures { map plain_function result.now ≡ plain_functions self.now }
    {
        self.items.as_slice()
    }
}
