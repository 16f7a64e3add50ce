//! Pairs in a row.
ghost use Rattle.std.specs.Prelude.{◌≡◌, ◌++◌, map, OnOk};
ghost use Rattle.cd_graph.specs.PlainFormula.{plain};
ghost use Rattle.cd_forms.specs.Inner.Chains.{begin, chain_from};

use crate::nodes::after;
use cd_graph::Formula;
use cd_sets::node_id::NodeId;
use std::alloc::AllocError;

/// Where pairs that are put in from a number on begin, if there are any.
pub(crate) fn begin(first: usize, heads: &[NodeId], end: NodeId) -> NodeId
    ensures { result ≡ begin first heads.now end }
{
    match heads {
        [] => end,
        [_, ..] => NodeId(first),
    }
}

/// Adds the formulas of pairs, which are to stand from a number on: what is in the heads, one after
/// the other, and then what is in the end.
pub(crate) fn add_pairs(
    formulas: &mut Vec<Formula>,
    first: usize,
    heads: &[NodeId],
    end: NodeId,
) -> Result<(), AllocError>
    ensures { OnOk result (map plain formulas.new.items
        ≡ map plain formulas.old.items ++ chain_from first heads.now end) }
{
    let mut number = first;
    let mut left = heads;
    while let [head, rest @ ..] = left {
        number = after(number, 1)?;
        formulas.push(Formula::pair(*head, begin(number, rest, end)))?;
        left = rest;
    }
    Ok(())
}
