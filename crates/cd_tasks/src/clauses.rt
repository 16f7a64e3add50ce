ghost use Rattle.std.specs.Prelude.{◌≡◌, IfOk};
ghost use Rattle.cd_normal.specs.PlainClause.{plain_clause};
ghost use Rattle.cd_tasks.specs.Assignments.{members_of, sides_of};

use cd_normal::clause::Clause;
use std::alloc::AllocError;

/// A clause with the same lists.
pub(crate) fn share<'g>(clause: &Clause<'g>) -> Result<Clause<'g>, AllocError>
    ensures { IfOk result (λ same. plain_clause same ≡ plain_clause clause.now) }
{
    match clause {
        Clause::Pairs(wanted, refused) => Ok(Clause::Pairs(wanted.clone()?, refused.clone()?)),
        Clause::Xmls(wanted, refused) => Ok(Clause::Xmls(wanted.clone()?, refused.clone()?)),
        Clause::Records(wanted, refused) => Ok(Clause::Records(wanted.clone()?, refused.clone()?)),
        Clause::Arrows(wanted, refused) => Ok(Clause::Arrows(wanted.clone()?, refused.clone()?)),
    }
}

/// To how many sides the members of a clause are given.
pub(crate) fn count_sides(clause: &Clause<'_>) -> usize
    ensures { result ≡ sides_of (plain_clause clause.now) }
{
    match clause {
        Clause::Pairs(_, _) => 2,
        Clause::Xmls(_, _) => 3,
        Clause::Records(_, _) => 0,
        Clause::Arrows(_, _) => 2,
    }
}

/// How many members of a clause are given to sides.
pub(crate) fn count_members(clause: &Clause<'_>) -> usize
    ensures { result ≡ members_of (plain_clause clause.now) }
{
    match clause {
        Clause::Pairs(_, refused) => refused.as_slice().len(),
        Clause::Xmls(_, refused) => refused.as_slice().len(),
        Clause::Records(_, _) => 0,
        Clause::Arrows(wanted, _) => wanted.as_slice().len(),
    }
}
