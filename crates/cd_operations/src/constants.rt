//! Constants as values.
ghost use Rattle.std.specs.Prelude.{IfOk};
ghost use Rattle.cd_syntax.specs.WellMadePattern.{IsWellMadeConstant};
ghost use Rattle.cd_matching.specs.Sequences.{thing_of};
ghost use Rattle.cd_cells.specs.Table.{table, IsAt, Grows};

use crate::added::integer;
use crate::texts::text_of;
use cd_cells::{ValueId, Values};
use cd_syntax::constant::Constant;
use std::alloc::AllocError;

/// The value of a constant.
///
/// # Errors
///
/// Want of memory.
pub fn constant(values: &mut Values, constant: &Constant) -> Result<ValueId, AllocError>
    requires { IsWellMadeConstant constant.now }
    ensures is { IfOk result (λ id. IsAt (table values.new) id.0 (thing_of constant.now)) }
    ensures grows { Grows values.old values.new }
{
    match constant {
        Constant::Int(n) => integer(values, *n),
        Constant::Char(c) => values.char(*c),
        Constant::Atom(name) => values.atom(name.as_str()),
        Constant::Text(text) => text_of(values, text.as_str()),
        Constant::Nil => values.nil(),
    }
}
