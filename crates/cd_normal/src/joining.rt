//! Conjuncts joined with others.
ghost use Rattle.std.specs.Prelude.{◌≡◌, ◌++◌, map, IfOk, OnOk};
ghost use Rattle.cd_rules.specs.Dnf.{joined as joined_conjuncts};
ghost use Rattle.cd_normal.specs.Inner.PlainConjunct.{plain_conjunct, plain_conjuncts};

use crate::literal::Literal;
use std::alloc::{AllocError, Global};

/// Each of these conjuncts with each of the others.
pub(crate) fn joined<'g>(
    alloc: Global,
    conjuncts: &[Vec<Literal<'g>>],
    others: &[Vec<Literal<'g>>],
) -> Result<Vec<Vec<Literal<'g>>>, AllocError>
    ensures { IfOk result (λ all.
        plain_conjuncts all.items ≡ joined_conjuncts (plain_conjuncts conjuncts.now)
        (plain_conjuncts others.now)) }
{
    let mut all = Vec::new(alloc);
    for conjunct in conjuncts {
        add_joined(&mut all, conjunct.as_slice(), others)?;
    }
    Ok(all)
}

// Adds the conjunct with each of the others.
fn add_joined<'g>(
    all: &mut Vec<Vec<Literal<'g>>>,
    conjunct: &[Literal<'g>],
    others: &[Vec<Literal<'g>>],
) -> Result<(), AllocError>
    ensures { OnOk result (plain_conjuncts all.new.items
        ≡ plain_conjuncts all.old.items
        ++ map (λ other. plain_conjunct conjunct.now ++ other) (plain_conjuncts others.now)) }
{
    for other in others {
        all.push(both(*all.allocator(), conjunct, other.as_slice())?)?;
    }
    Ok(())
}

// The literals of both conjuncts.
fn both<'g>(
    alloc: Global,
    conjunct: &[Literal<'g>],
    other: &[Literal<'g>],
) -> Result<Vec<Literal<'g>>, AllocError>
    ensures { IfOk result (λ both.
        plain_conjunct both.items ≡ plain_conjunct conjunct.now ++ plain_conjunct other.now) }
{
    let mut both = Vec::from_slice(alloc, conjunct)?;
    both.extend_from_slice(other)?;
    Ok(both)
}
