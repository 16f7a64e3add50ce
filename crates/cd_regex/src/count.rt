//! How many items stand in an expression, where there is a word for so many.
ghost use Rattle.std.specs.Prelude.{◌+◌, ◌<◌, ◌^◌, SomeIff};
ghost use Rattle.std.specs.Bool.{OnTrue};
ghost use Rattle.cd_regex.specs.Regular.{items_in, items_in_all};
ghost use Rattle.cd_regex.specs.PlainRegular.{plain, plain_all};

use crate::regular::Reg;

/// Whether the numbers of all states are words, where they are numbered after this number.
pub(crate) fn fits(first: usize, regular: &Reg) -> bool
    ensures { OnTrue result (first + items_in (plain regular.now) < 2 ^ 64) }
{
    let Some(count) = count(regular) else {
        return false;
    };
    first.checked_add(count).is_some()
}

// How many items stand in an expression.
#[cycle(count)]
fn count(is: &Reg) -> Option<usize>
    ensures { SomeIff result (items_in (plain is.now) < 2 ^ 64) (items_in (plain is.now)) }
{
    match is {
        Reg::Nothing => Some(0),
        Reg::Item(_) => Some(1),
        Reg::Seq(all) | Reg::Alt(all) => count_all(all.items.as_slice()),
        Reg::Star(is) | Reg::Plus(is) | Reg::Opt(is) => count(is),
    }
}

// How many items stand in these.
#[cycle(count)]
fn count_all(all: &[Reg]) -> Option<usize>
    ensures { SomeIff result (items_in_all (plain_all all.now) < 2 ^ 64)
        (items_in_all (plain_all all.now)) }
{
    let mut so_far = 0usize;
    for is in all {
        so_far = so_far.checked_add(count(is)?)?;
    }
    Some(so_far)
}
