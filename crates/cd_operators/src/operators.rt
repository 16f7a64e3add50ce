//! Operators between two operands.
ghost use Rattle.std.specs.Prelude.{◌≡◌, ◌<◌, [], ◌∷◌, length, IfOk, IfErr, true, false, OnOk};
ghost use Rattle.cd_model.specs.Formula.{IsGraph};
ghost use Rattle.cd_meaning.specs.Sets.{elements_of};
ghost use Rattle.cd_typing.specs.Operators.{AreIntegers};
ghost use Rattle.cd_typing.specs.Typ.{BuiltIn};
ghost use Rattle.cd_rules.specs.Needs.{question};
ghost use Rattle.cd_empty.specs.Growth.{Grows};
ghost use Rattle.cd_empty.specs.Seen.{graph_of, table_of};
ghost use Rattle.cd_verdicts.specs.Verdicts.{IsExact};
ghost use Rattle.cd_operators.specs.Misfits.{IsMisfit, IsMisfitOfBoth, AreRecords};
ghost use Rattle.cd_operators.specs.ResultTypes.{IsLeastResult};
ghost use Rattle.cd_operators.specs.Tools.{AreTools};

use crate::misfit::{Misfit, Side, Stop};
use crate::need::{need_both, outside};
use crate::operation::Operation;
use crate::results::results;
use crate::tools::Tools;
use cd_empty::World;
use cd_forms::joined;
use cd_graph::built_in::{BOOL, DATA, INT, RECORD};
use cd_needs::asking::question;
use cd_program::operator::Op;
use cd_records::merged;
use cd_sets::node_id::NodeId;
use cd_typing::rule::Rule;
use cd_verdicts::Verdict;
use std::alloc::{AllocError, Global};

/// A node of what an operator gives for operands of these types. Of `&&` and `||` this is what they
/// give where the second operand is met.
///
/// # Errors
///
/// The first operand that is refused, with its rule and an element that shows it; or want of
/// memory.
pub fn operate(
    alloc: Global,
    world: &mut World,
    tools: &Tools,
    op: Op,
    first: NodeId,
    second: NodeId,
) -> Result<NodeId, Stop>
    requires tools { AreTools (graph_of world.old) tools.now }
    requires first { first.0 < length (graph_of world.old) }
    requires second { second.0 < length (graph_of world.old) }
    ensures least { IfOk result (λ id. IsLeastResult op
        (elements_of (graph_of world.old) first) (elements_of (graph_of world.old) second)
        (elements_of (graph_of world.new) id)) }
    ensures node { IfOk result (λ id. id.0 < length (graph_of world.new)) }
    ensures misfit { IfErr result
        (IsMisfit (graph_of world.old) (table_of world.new) op first second) }
    ensures sound { IsGraph (graph_of world.new) }
    ensures grows { Grows world.old world.new }
{
    // The contract of this call says that the graph begins with the built-in nodes.
    world.graph();
    match op {
        Op::Or | Op::And => Ok(second),
        Op::Equal | Op::Unequal => compare(world, first, second),
        Op::Less | Op::AtMost | Op::Greater | Op::AtLeast => {
            integers(world, first, second)?;
            Ok(BOOL)
        }
        Op::Concat => concatenate(alloc, world, tools, first, second),
        Op::Plus => add(alloc, world, first, second),
        Op::Minus => subtract(alloc, world, first, second),
        Op::Times => {
            integers(world, first, second)?;
            Ok(INT)
        }
        Op::Div | Op::Mod => divide(alloc, world, tools, first, second),
    }
}

// Refuses two operands that are not both integers.
fn integers(world: &mut World, first: NodeId, second: NodeId) -> Result<(), Stop>
    requires first { first.0 < length (graph_of world.old) }
    requires second { second.0 < length (graph_of world.old) }
    ensures within { OnOk result (AreIntegers (elements_of (graph_of world.old) first)
        (elements_of (graph_of world.old) second)) }
    ensures misfit { IfErr result (IsMisfitOfBoth (graph_of world.old) (table_of world.new)
        first second (BuiltIn INT) Rule.Operand) }
    ensures graph { graph_of world.new ≡ graph_of world.old }
    ensures sound { IsGraph (graph_of world.new) }
    ensures grows { Grows world.old world.new }
{
    // The contract of this call says that the graph is sound and begins with the built-in nodes.
    world.graph();
    need_both(world, first, second, INT, Rule::Operand)
}

// `=` and `!=`.
fn compare(world: &mut World, first: NodeId, second: NodeId) -> Result<NodeId, Stop>
    requires first { first.0 < length (graph_of world.old) }
    requires second { second.0 < length (graph_of world.old) }
    ensures least { IfOk result (λ id. IsLeastResult Op.Equal
        (elements_of (graph_of world.old) first) (elements_of (graph_of world.old) second)
        (elements_of (graph_of world.new) id)) }
    ensures node { IfOk result (λ id. id.0 < length (graph_of world.new)) }
    ensures misfit { IfErr result
        (IsMisfit (graph_of world.old) (table_of world.new) Op.Equal first second) }
    ensures sound { IsGraph (graph_of world.new) }
    ensures grows { Grows world.old world.new }
{
    // The contract of this call says that the graph is sound and begins with the built-in nodes.
    world.graph();
    need_both(world, first, second, DATA, Rule::Comparison)?;
    Ok(BOOL)
}

// `@`.
fn concatenate(
    alloc: Global,
    world: &mut World,
    tools: &Tools,
    first: NodeId,
    second: NodeId,
) -> Result<NodeId, Stop>
    requires tools { AreTools (graph_of world.old) tools.now }
    requires first { first.0 < length (graph_of world.old) }
    requires second { second.0 < length (graph_of world.old) }
    ensures least { IfOk result (λ id. IsLeastResult Op.Concat
        (elements_of (graph_of world.old) first) (elements_of (graph_of world.old) second)
        (elements_of (graph_of world.new) id)) }
    ensures node { IfOk result (λ id. id.0 < length (graph_of world.new)) }
    ensures misfit { IfErr result
        (IsMisfit (graph_of world.old) (table_of world.new) Op.Concat first second) }
    ensures sound { IsGraph (graph_of world.new) }
    ensures grows { Grows world.old world.new }
{
    // The contract of this call says that the graph is sound and begins with the built-in nodes.
    world.graph();
    need_both(world, first, second, tools.sequences, Rule::Sequence)?;
    Ok(joined(alloc, world, first, second)?)
}

// `+`: of records, or else of integers.
fn add(alloc: Global, world: &mut World, first: NodeId, second: NodeId) -> Result<NodeId, Stop>
    requires first { first.0 < length (graph_of world.old) }
    requires second { second.0 < length (graph_of world.old) }
    ensures least { IfOk result (λ id. IsLeastResult Op.Plus
        (elements_of (graph_of world.old) first) (elements_of (graph_of world.old) second)
        (elements_of (graph_of world.new) id)) }
    ensures node { IfOk result (λ id. id.0 < length (graph_of world.new)) }
    ensures misfit { IfErr result
        (IsMisfit (graph_of world.old) (table_of world.new) Op.Plus first second) }
    ensures sound { IsGraph (graph_of world.new) }
    ensures grows { Grows world.old world.new }
{
    if are_records(world, first, second)? {
        return Ok(merged(alloc, world, first, second)?);
    }
    integers(world, first, second)?;
    Ok(results(alloc, world, Operation::Sum, first, second)?)
}

// Whether two operands are both records.
fn are_records(world: &mut World, first: NodeId, second: NodeId) -> Result<bool, AllocError>
    requires first { first.0 < length (graph_of world.old) }
    requires second { second.0 < length (graph_of world.old) }
    ensures within { IfOk result (λ are. are ≡ true
        → AreRecords (graph_of world.old) first second) }
    ensures not_within { IfOk result (λ are. are ≡ false
        → AreRecords (graph_of world.old) first second → ⊥) }
    ensures graph { graph_of world.new ≡ graph_of world.old }
    ensures sound { IsGraph (graph_of world.new) }
    ensures grows { Grows world.old world.new }
{
    // The contract of this call says that the graph is sound and begins with the built-in nodes.
    world.graph();
    match outside(world, first, RECORD)? {
        Some(_) => Ok(false),
        None => Ok(outside(world, second, RECORD)?.is_none()),
    }
}

// `-`.
fn subtract(alloc: Global, world: &mut World, first: NodeId, second: NodeId) -> Result<NodeId, Stop>
    requires first { first.0 < length (graph_of world.old) }
    requires second { second.0 < length (graph_of world.old) }
    ensures least { IfOk result (λ id. IsLeastResult Op.Minus
        (elements_of (graph_of world.old) first) (elements_of (graph_of world.old) second)
        (elements_of (graph_of world.new) id)) }
    ensures node { IfOk result (λ id. id.0 < length (graph_of world.new)) }
    ensures misfit { IfErr result
        (IsMisfit (graph_of world.old) (table_of world.new) Op.Minus first second) }
    ensures sound { IsGraph (graph_of world.new) }
    ensures grows { Grows world.old world.new }
{
    integers(world, first, second)?;
    Ok(results(alloc, world, Operation::Difference, first, second)?)
}

// `div` and `mod`.
fn divide(
    alloc: Global,
    world: &mut World,
    tools: &Tools,
    first: NodeId,
    second: NodeId,
) -> Result<NodeId, Stop>
    requires tools { AreTools (graph_of world.old) tools.now }
    requires first { first.0 < length (graph_of world.old) }
    requires second { second.0 < length (graph_of world.old) }
    ensures least { IfOk result (λ id. IsLeastResult Op.Div
        (elements_of (graph_of world.old) first) (elements_of (graph_of world.old) second)
        (elements_of (graph_of world.new) id)) }
    ensures node { IfOk result (λ id. id.0 < length (graph_of world.new)) }
    ensures misfit { IfErr result
        (IsMisfit (graph_of world.old) (table_of world.new) Op.Div first second) }
    ensures sound { IsGraph (graph_of world.new) }
    ensures grows { Grows world.old world.new }
{
    // The contract of this call says that the graph begins with the built-in nodes.
    world.graph();
    integers(world, first, second)?;
    match zeros(alloc, world, tools, second)? {
        Verdict::Empty => Ok(INT),
        Verdict::Inhabited(element) => Err(Stop::Misfit(Misfit {
            side: Side::Second,
            rule: Rule::Divisor,
            element,
        })),
    }
}

// Whether there is 0 in a node.
fn zeros(alloc: Global, world: &mut World, tools: &Tools, id: NodeId) -> Result<Verdict, AllocError>
    requires tools { AreTools (graph_of world.old) tools.now }
    requires id { id.0 < length (graph_of world.old) }
    ensures exact { IfOk result (λ verdict. IsExact (graph_of world.old) (table_of world.new)
        (question (id ∷ tools.now.zero ∷ []) []) verdict) }
    ensures graph { graph_of world.new ≡ graph_of world.old }
    ensures grows { Grows world.old world.new }
{
    let asked = question(alloc, &[id, tools.zero], &[])?;
    world.decide(&asked)
}
