//! The reasons that a word gives to refused record types.
ghost use Rattle.std.specs.Prelude.{◌≡◌, ◌≤◌, length, IfOk};
ghost use Rattle.std.specs.Option.{option_map};
ghost use Rattle.cd_needs.specs.RecordType.{record_types};
ghost use Rattle.cd_needs.specs.PlainReasons.{plain_labels, plain_reasons};
ghost use Rattle.cd_tasks.specs.Assignments.{reason_of, reasons_by as reasons_of_word};

use cd_graph::fields::Fields;
use cd_needs::reasons::Chosen;
use cd_syntax::name::Name;
use std::alloc::{AllocError, Global};

// The reason of a side.
fn reason<'t>(labels: &[&'t Name], side: usize) -> Option<&'t Name>
    ensures { option_map (λ label. label.now) result ≡ reason_of (plain_labels labels.now) side }
{
    if side == 0 {
        return None;
    }
    match labels.get(side - 1) {
        Some(label) => Some(*label),
        None => None,
    }
}

/// The first refused types with the reasons that a word gives them.
pub(crate) fn reasons_by<'t>(
    alloc: Global,
    labels: &[&'t Name],
    word: &[usize],
    refused: &[&'t Fields],
) -> Result<Vec<Chosen<'t>>, AllocError>
    requires { length word.now ≤ length refused.now }
    ensures { IfOk result (λ reasons. plain_reasons reasons.items
        ≡ reasons_of_word (plain_labels labels.now) word.now (record_types refused.now)) }
{
    let mut reasons = Vec::new(alloc);
    for index in 0..word.len() {
        reasons.push(Chosen {
            refused: refused[index],
            reason: reason(labels, word[index]),
        })?;
    }
    Ok(reasons)
}
