//! How many items stand in an expression, where there is a word for so many.
ghost use Rattle.std.specs.Prelude.{◌<◌, ◌^◌, SomeIff};
ghost use Rattle.cd_matching.specs.Pattern.{regulars_of};
ghost use Rattle.cd_matching.specs.PlainPattern.{plain_regular};
ghost use Rattle.std.specs.Prelude.{map};
ghost use Rattle.cd_moves.specs.Automaton.{items_in, items_in_all};

use cd_matching::pattern::RegPat;

/// How many items stand in an expression.
#[cycle(count)]
pub(crate) fn count(is: &RegPat) -> Option<usize>
    ensures { SomeIff result (items_in (plain_regular is.now) < 2 ^ 64)
        (items_in (plain_regular is.now)) }
{
    match is {
        RegPat::Nothing => Some(0),
        RegPat::Item(_) => Some(1),
        RegPat::Seq(all) | RegPat::Alt(all) => count_all(all.items.as_slice()),
        RegPat::Repeat(is, _) | RegPat::Capture(_, is) => count(is),
    }
}

// How many items stand in these.
#[cycle(count)]
fn count_all(all: &[RegPat]) -> Option<usize>
    ensures { SomeIff result (items_in_all (regulars_of (map plain_regular all.now)) < 2 ^ 64)
        (items_in_all (regulars_of (map plain_regular all.now))) }
{
    let mut so_far = 0usize;
    for is in all {
        so_far = so_far.checked_add(count(is)?)?;
    }
    Some(so_far)
}
