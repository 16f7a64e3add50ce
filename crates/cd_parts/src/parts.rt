//! The needs of pairs, XML elements and functions.
ghost use Rattle.std.specs.Prelude.{◌≡◌, ◌∷◌, ◌++◌, map, IfOk, OnOk};
ghost use Rattle.cd_rules.specs.Needs.{question, pair_way, xml_way, arrow_way, result_questions};

use crate::sets_of::{contents, firsts, one, seconds, with_attributes, with_tags};
use cd_graph::built_in::{ATOM, RECORD};
use cd_sets::id_set::IdSet;
use cd_sets::node_id::NodeId;
use cd_sets::question::{Question, Questions};
use std::alloc::{AllocError, Global};

/// The questions of the two parts of a pair: `firsts` are the refused pairs that the first part is
/// outside, and `seconds` those that the second part is outside.
///
/// # Errors
///
/// Want of memory.
pub fn pair_questions(
    alloc: Global,
    wanted: &[(NodeId, NodeId)],
    firsts: &[(NodeId, NodeId)],
    seconds: &[(NodeId, NodeId)],
) -> Result<Vec<Question>, AllocError>
    ensures { IfOk result
        (λ questions. questions.items ≡ pair_way wanted.now (firsts.now, seconds.now)) }
{
    let mut questions = Vec::with_capacity(alloc, 2)?;
    questions.push(question_of_firsts(alloc, wanted, firsts)?)?;
    questions.push(question_of_seconds(alloc, wanted, seconds)?)?;
    Ok(questions)
}

/// What is in the first part of each wanted pair and in that of no refused one.
///
/// # Errors
///
/// Want of memory.
pub fn question_of_firsts(
    alloc: Global,
    wanted: &[(NodeId, NodeId)],
    refused: &[(NodeId, NodeId)],
) -> Result<Question, AllocError>
    ensures { IfOk result (λ asked. asked
        ≡ question (map (λ parts. parts.0) wanted.now) (map (λ parts. parts.0) refused.now)) }
{
    Ok(Question {
        pos: firsts(alloc, wanted)?,
        neg: firsts(alloc, refused)?,
    })
}

/// What is in the second part of each wanted pair and in that of no refused one.
///
/// # Errors
///
/// Want of memory.
pub fn question_of_seconds(
    alloc: Global,
    wanted: &[(NodeId, NodeId)],
    refused: &[(NodeId, NodeId)],
) -> Result<Question, AllocError>
    ensures { IfOk result (λ asked. asked
        ≡ question (map (λ parts. parts.1) wanted.now) (map (λ parts. parts.1) refused.now)) }
{
    Ok(Question {
        pos: seconds(alloc, wanted)?,
        neg: seconds(alloc, refused)?,
    })
}

/// The questions of the three parts of an XML element: `tags` are the refused ones that the tag is
/// outside, and so on.
///
/// # Errors
///
/// Want of memory.
pub fn xml_questions(
    alloc: Global,
    wanted: &[(NodeId, NodeId, NodeId)],
    tags: &[(NodeId, NodeId, NodeId)],
    attributes: &[(NodeId, NodeId, NodeId)],
    contents: &[(NodeId, NodeId, NodeId)],
) -> Result<Vec<Question>, AllocError>
    ensures { IfOk result (λ questions.
        questions.items ≡ xml_way wanted.now (tags.now, attributes.now, contents.now)) }
{
    let mut questions = Vec::with_capacity(alloc, 3)?;
    questions.push(question_of_tags(alloc, ATOM, wanted, tags)?)?;
    questions.push(question_of_attributes(alloc, RECORD, wanted, attributes)?)?;
    questions.push(question_of_contents(alloc, wanted, contents)?)?;
    Ok(questions)
}

/// What is in a node, and in the tag of each wanted element and in that of no refused one.
///
/// # Errors
///
/// Want of memory.
pub fn question_of_tags(
    alloc: Global,
    all: NodeId,
    wanted: &[(NodeId, NodeId, NodeId)],
    refused: &[(NodeId, NodeId, NodeId)],
) -> Result<Question, AllocError>
    ensures { IfOk result (λ asked. asked
        ≡ question (all ∷ map (λ parts. parts.0) wanted.now) (map (λ parts. parts.0) refused.now)) }
{
    let pos = with_tags(one(alloc, all)?, wanted)?;
    let neg = with_tags(IdSet::new(alloc), refused)?;
    Ok(Question { pos, neg })
}

/// What is in a node, and in the attributes of each wanted element and in those of no refused one.
///
/// # Errors
///
/// Want of memory.
pub fn question_of_attributes(
    alloc: Global,
    all: NodeId,
    wanted: &[(NodeId, NodeId, NodeId)],
    refused: &[(NodeId, NodeId, NodeId)],
) -> Result<Question, AllocError>
    ensures { IfOk result (λ asked. asked
        ≡ question (all ∷ map (λ parts. parts.1) wanted.now) (map (λ parts. parts.1) refused.now)) }
{
    let pos = with_attributes(one(alloc, all)?, wanted)?;
    let neg = with_attributes(IdSet::new(alloc), refused)?;
    Ok(Question { pos, neg })
}

/// What is in the contents of each wanted element and in those of no refused one.
///
/// # Errors
///
/// Want of memory.
pub fn question_of_contents(
    alloc: Global,
    wanted: &[(NodeId, NodeId, NodeId)],
    refused: &[(NodeId, NodeId, NodeId)],
) -> Result<Question, AllocError>
    ensures { IfOk result (λ asked. asked
        ≡ question (map (λ parts. parts.2) wanted.now) (map (λ parts. parts.2) refused.now)) }
{
    Ok(Question {
        pos: contents(alloc, wanted)?,
        neg: contents(alloc, refused)?,
    })
}

/// The questions of a pair by which a function is outside a refused arrow: its argument is outside
/// those of the wanted arrows `outside`, and its result is in the results of `results`. Where these
/// are none the pair may have no result.
///
/// # Errors
///
/// Want of memory.
pub fn arrow_questions(
    alloc: Global,
    refused: (NodeId, NodeId),
    outside: &[(NodeId, NodeId)],
    results: &[(NodeId, NodeId)],
) -> Result<Vec<Question>, AllocError>
    ensures { IfOk result
        (λ questions. questions.items ≡ arrow_way refused (outside.now, results.now)) }
{
    let mut questions = Vec::new(alloc);
    let pos = one(alloc, refused.0)?;
    let neg = firsts(alloc, outside)?;
    questions.push(Question { pos, neg })?;
    ask_of_result(alloc, refused, results, &mut questions)?;
    Ok(questions)
}

// Adds what the pair's result is to be. Where no wanted arrow speaks of it the pair may have none.
fn ask_of_result(
    alloc: Global,
    refused: (NodeId, NodeId),
    others: &[(NodeId, NodeId)],
    questions: &mut Vec<Question>,
) -> Result<(), AllocError>
    ensures { OnOk result
        (questions.new.items ≡ questions.old.items ++ result_questions refused others.now) }
{
    match others {
        [] => Ok(()),
        [_, ..] => {
            let pos = seconds(alloc, others)?;
            let neg = one(alloc, refused.1)?;
            questions.push(Question { pos, neg })?;
            Ok(())
        }
    }
}
