//! The way that a word makes.
ghost use Rattle.std.specs.Prelude.{◌≡◌, ◌≤◌, length, IfOk};
ghost use Rattle.std.specs.List.{slice_get};
ghost use Rattle.cd_normal.specs.PlainClause.{plain_clause};
ghost use Rattle.cd_rules.specs.Needs.{pair_way as pair_way_by, xml_way as xml_way_by};
ghost use Rattle.cd_tasks.specs.Assignments.{given as given_by, given_in_three as given_by_three};
ghost use Rattle.cd_tasks.specs.Assignments.{members_of, way_of as way_by, way_outside};

use crate::given::{given, given_in_three};
use cd_normal::clause::Clause;
use cd_parts::parts::{arrow_questions, pair_questions, xml_questions};
use cd_sets::node_id::NodeId;
use cd_sets::question::Question;
use std::alloc::{AllocError, Global};

/// The questions of the way of a need that a word makes.
pub(crate) fn way_of(
    alloc: Global,
    clause: &Clause<'_>,
    need: usize,
    word: &[usize],
) -> Result<Vec<Question>, AllocError>
    requires { length word.now ≤ members_of (plain_clause clause.now) }
    ensures { IfOk result
        (λ way. way.items ≡ way_by (plain_clause clause.now) need word.now) }
{
    match clause {
        Clause::Pairs(wanted, refused) => {
            pair_way(alloc, wanted.as_slice(), refused.as_slice(), word)
        }
        Clause::Xmls(wanted, refused) => {
            xml_way(alloc, wanted.as_slice(), refused.as_slice(), word)
        }
        Clause::Arrows(wanted, refused) => {
            arrow_way(alloc, wanted.as_slice(), refused.as_slice(), need, word)
        }
        Clause::Records(_, _) => Ok(Vec::new(alloc)),
    }
}

// The way that a word makes for pairs.
fn pair_way(
    alloc: Global,
    wanted: &[(NodeId, NodeId)],
    refused: &[(NodeId, NodeId)],
    word: &[usize],
) -> Result<Vec<Question>, AllocError>
    requires { length word.now ≤ length refused.now }
    ensures { IfOk result
        (λ way. way.items ≡ pair_way_by wanted.now (given_by word.now refused.now)) }
{
    let (firsts, seconds) = given(alloc, word, refused)?;
    pair_questions(alloc, wanted, firsts.as_slice(), seconds.as_slice())
}

// The way that a word makes for XML elements.
fn xml_way(
    alloc: Global,
    wanted: &[(NodeId, NodeId, NodeId)],
    refused: &[(NodeId, NodeId, NodeId)],
    word: &[usize],
) -> Result<Vec<Question>, AllocError>
    requires { length word.now ≤ length refused.now }
    ensures { IfOk result
        (λ way. way.items ≡ xml_way_by wanted.now (given_by_three word.now refused.now)) }
{
    let (tags, attributes, contents) = given_in_three(alloc, word, refused)?;
    xml_questions(
        alloc,
        wanted,
        tags.as_slice(),
        attributes.as_slice(),
        contents.as_slice(),
    )
}

// The way that a word makes for one of the refused arrows, if it is one.
fn arrow_way(
    alloc: Global,
    wanted: &[(NodeId, NodeId)],
    refused: &[(NodeId, NodeId)],
    need: usize,
    word: &[usize],
) -> Result<Vec<Question>, AllocError>
    requires { length word.now ≤ length wanted.now }
    ensures { IfOk result (λ way.
        way.items ≡ way_outside (slice_get refused.now need) (given_by word.now wanted.now)) }
{
    match refused.get(need) {
        Some(refused) => {
            let (outside, results) = given(alloc, word, wanted)?;
            arrow_questions(alloc, *refused, outside.as_slice(), results.as_slice())
        }
        None => Ok(Vec::new(alloc)),
    }
}
