//! Copies of constants.
ghost use Rattle.std.specs.Prelude.{◌≡◌, IfOk};

use cd_syntax::constant::Constant;
use std::alloc::AllocError;

/// An equal constant.
pub fn copy(constant: &Constant) -> Result<Constant, AllocError>
    ensures { IfOk result (λ same. same ≡ constant.now) }
{
    Ok(match constant {
        Constant::Int(n) => Constant::Int(*n),
        Constant::Char(c) => Constant::Char(*c),
        Constant::Atom(name) => Constant::Atom(name.copy()?),
        Constant::Text(text) => Constant::Text(text.copy()?),
        Constant::Nil => Constant::Nil,
    })
}
