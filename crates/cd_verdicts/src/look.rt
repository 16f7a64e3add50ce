//! What is known of a question.
ghost use Rattle.std.specs.Prelude.{◌≡◌};
ghost use Rattle.std.specs.List.{list_any};
ghost use Rattle.cd_sets.specs.IdSet.{holds};
ghost use Rattle.cd_verdicts.specs.Looking.{IsSeen};

use crate::asked::Asked;
use crate::verdict::Verdict;
use crate::verdicts::Verdicts;
use cd_elements::ElementId;
use cd_sets::question::Question;

/// What is known of a question.
#[derive(Clone, Copy)]
pub enum Look {
    /// It contradicts itself, or it is settled or assumed that it has no element.
    Empty,
    /// It has this one.
    Has(ElementId),
    /// Nothing.
    Unknown,
}

/// What is known of a question, by verdicts and by the questions that are assumed to have no
/// element. A question that leads back to itself has none by that: no pair is endless.
pub fn look_at(verdicts: &Verdicts, assumed: &Asked, question: &Question) -> Look
    ensures { IsSeen verdicts.now assumed.now question.now result }
{
    if contradicts_itself(question) {
        return Look::Empty;
    }
    match verdicts.get(question) {
        Some(Verdict::Empty) => Look::Empty,
        Some(Verdict::Inhabited(id)) => Look::Has(id),
        None => match assumed.find(question) {
            Some(_) => Look::Empty,
            None => Look::Unknown,
        },
    }
}

/// Whether a question wants a node that it refuses.
pub fn contradicts_itself(question: &Question) -> bool
    ensures { result ≡ list_any (holds question.now.neg) question.now.pos }
{
    let refused = &question.neg;
    if refused.len() == 0 {
        return false;
    }
    question.pos.ids().iter().any(|id| refused.contains(*id))
}
