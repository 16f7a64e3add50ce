//! The parts of the wanted literals of a conjunct, and of the refused ones.
ghost use Rattle.std.specs.Prelude.{◌≡◌, ◌++◌, [], true, false, IfOk, OnOk};
ghost use Rattle.std.specs.Option.{option_map};
ghost use Rattle.cd_needs.specs.RecordType.{record_type, record_types};
ghost use Rattle.cd_rules.specs.Clauses.{one_more, parts_in, pair_of, xml_of, record_of, arrow_of};
ghost use Rattle.cd_normal.specs.Inner.PlainConjunct.{plain_conjunct};

use crate::literal::Literal;
use crate::part::{arrow, pair, record, xml};
use cd_graph::fields::Fields;
use cd_sets::node_id::NodeId;
use std::alloc::{AllocError, Global};

/// The parts of the pairs that are wanted, or of those that are refused.
#[tactic(auto, using(crate::proofs::Lists::one_more_before))]
pub(crate) fn pairs(
    alloc: Global,
    wanted: bool,
    conjunct: &[Literal<'_>],
) -> Result<Vec<(NodeId, NodeId)>, AllocError>
    ensures { IfOk result (λ parts.
        parts.items ≡ parts_in pair_of wanted (plain_conjunct conjunct.now)) }
{
    let mut parts = Vec::with_capacity(alloc, conjunct.len())?;
    for literal in conjunct {
        add(&mut parts, wanted, literal.wanted, pair(literal.formula))?;
    }
    Ok(parts)
}

/// The parts of the XML elements that are wanted.
#[tactic(auto, using(crate::proofs::Lists::one_more_before))]
pub(crate) fn wanted_xmls(
    alloc: Global,
    conjunct: &[Literal<'_>],
) -> Result<Vec<(NodeId, NodeId, NodeId)>, AllocError>
    ensures { IfOk result
        (λ parts. parts.items ≡ parts_in xml_of true (plain_conjunct conjunct.now)) }
{
    let mut parts = Vec::new(alloc);
    for literal in conjunct {
        add(&mut parts, true, literal.wanted, xml(literal.formula))?;
    }
    Ok(parts)
}

/// The parts of the XML elements that are wanted, and of those that are refused.
#[tactic(auto, using(crate::proofs::Lists::one_more_before))]
pub(crate) fn xmls(
    alloc: Global,
    conjunct: &[Literal<'_>],
) -> Result<(Vec<(NodeId, NodeId, NodeId)>, Vec<(NodeId, NodeId, NodeId)>), AllocError>
    ensures wanted { IfOk result (λ parts.
        parts.0.items ≡ parts_in xml_of true (plain_conjunct conjunct.now)) }
    ensures refused { IfOk result (λ parts.
        parts.1.items ≡ parts_in xml_of false (plain_conjunct conjunct.now)) }
{
    // Most of them are refused.
    let mut wanted = Vec::new(alloc);
    let mut refused = Vec::with_capacity(alloc, conjunct.len())?;
    for literal in conjunct {
        let part = xml(literal.formula);
        add(&mut wanted, true, literal.wanted, part)?;
        add(&mut refused, false, literal.wanted, part)?;
    }
    Ok((wanted, refused))
}

/// The fields of the records that are wanted, or of those that are refused.
#[tactic(auto, using(crate::proofs::Lists::one_more_before))]
pub(crate) fn records<'g>(
    alloc: Global,
    wanted: bool,
    conjunct: &[Literal<'g>],
) -> Result<Vec<&'g Fields>, AllocError>
    ensures { IfOk result (λ parts.
        record_types parts.items ≡ parts_in record_of wanted (plain_conjunct conjunct.now)) }
{
    let mut parts = Vec::with_capacity(alloc, conjunct.len())?;
    for literal in conjunct {
        add_fields(&mut parts, wanted, literal.wanted, record(literal.formula))?;
    }
    Ok(parts)
}

/// The parts of the functions that are wanted, or of those that are refused.
#[tactic(auto, using(crate::proofs::Lists::one_more_before))]
pub(crate) fn arrows(
    alloc: Global,
    wanted: bool,
    conjunct: &[Literal<'_>],
) -> Result<Vec<(NodeId, NodeId)>, AllocError>
    ensures { IfOk result (λ parts.
        parts.items ≡ parts_in arrow_of wanted (plain_conjunct conjunct.now)) }
{
    let mut parts = Vec::with_capacity(alloc, conjunct.len())?;
    for literal in conjunct {
        add(&mut parts, wanted, literal.wanted, arrow(literal.formula))?;
    }
    Ok(parts)
}

// Adds the part of a literal, if there is one, where the literal is on the side that is asked for.
fn add<T: Copy>(
    parts: &mut Vec<T>,
    side: bool,
    wanted: bool,
    part: Option<T>,
) -> Result<(), AllocError>
    ensures { OnOk result (parts.new.items ≡ parts.old.items ++ one_more side wanted part []) }
{
    match part {
        Some(part) if side == wanted => Ok(parts.push(part)?),
        Some(_) => Ok(()),
        None => Ok(()),
    }
}

// Adds the fields of a literal likewise.
fn add_fields<'g>(
    parts: &mut Vec<&'g Fields>,
    side: bool,
    wanted: bool,
    part: Option<&'g Fields>,
) -> Result<(), AllocError>
    ensures { OnOk result (record_types parts.new.items
        ≡ record_types parts.old.items
        ++ one_more side wanted (option_map (λ fields. record_type fields.now) part.entry) []) }
{
    match part {
        Some(fields) if side == wanted => Ok(parts.push(fields)?),
        Some(_) => Ok(()),
        None => Ok(()),
    }
}
