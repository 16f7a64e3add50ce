ghost use Rattle.std.specs.Prelude.{◌≡◌, ℤ, pos, ◌+ℤ◌, ◌≤ℤ◌, ◌<ℤ◌, ◌||◌, ◌⊎◌, IfOk, OnOk};
ghost use Rattle.cd_sets.specs.Interval.{is_between, holds};
ghost use Rattle.cd_syntax.specs.Integer.{LEAST, GREATEST};
ghost use Rattle.cd_sets.specs.Rises.{Rises, IsRising};
ghost use Rattle.cd_sets.specs.Inner.Combine.{keeps_of, IsAhead, swept, IsSwept, come_to};

use crate::interval::Interval;
use std::alloc::{AllocError, Global};

// How two sets are combined.
#[derive(Clone, Copy)]
pub(crate) enum Operation {
    Union,
    Intersection,
    Difference,
}

impl Operation {
    fn keeps(self, left: bool, right: bool) -> bool
        ensures { result ≡ keeps_of self left right }
    {
        match self {
            Operation::Union => left || right,
            Operation::Intersection => left && right,
            Operation::Difference => left && !right,
        }
    }
}

// Numbers from one on that a set holds all, or holds none of.
#[derive(Clone, Copy)]
struct Run {
    held: bool,
    last: i128,
}

// The intervals of the numbers that the operation keeps. It sweeps over the numbers from the least
// on, run by run.
pub(crate) fn combine(
    alloc: Global,
    operation: Operation,
    left: &[Interval],
    right: &[Interval],
) -> Result<Vec<Interval>, AllocError>
    requires left { IsRising left.now }
    requires right { IsRising right.now }
    ensures rising { IfOk result (λ kept. IsRising kept.items) }
    ensures exact { IfOk result
        (λ kept. (z : ℤ) → holds kept.items z
        ≡ keeps_of operation (holds left.now z) (holds right.now z)) }
{
    let mut kept = Vec::new(alloc);
    let mut since = None;
    let mut left = left;
    let mut right = right;
    let mut next = Some(i128::MIN);
    while let Some(from) = next {
        let run = both(operation, run_at(left, from), run_at(right, from));
        since = turn(&mut kept, since, from, run.held)?;
        left = past(left, run);
        right = past(right, run);
        next = after(run);
    }
    close(&mut kept, since)?;
    Ok(kept)
}

// The number after a run, if the run doesn't end at the greatest.
fn after(run: Run) -> Option<i128>
    ensures { come_to result ≡ run.last +ℤ pos 1 }
{
    run.last.checked_add(1)
}

// The numbers of both runs, held where the operation keeps them.
fn both(operation: Operation, left: Run, right: Run) -> Run
    ensures held { result.held ≡ keeps_of operation left.held right.held }
    ensures first { result.last ≤ℤ left.last }
    ensures second { result.last ≤ℤ right.last }
    ensures one { (result.last ≡ left.last) ⊎ (result.last ≡ right.last) }
{
    Run {
        held: operation.keeps(left.held, right.held),
        last: left.last.min(right.last),
    }
}

// The run of numbers that begins at `from`.
#[tactic(auto, using(crate::proofs::Rising::holds_before))]
fn run_at(intervals: &[Interval], from: i128) -> Run
    requires { IsAhead from intervals.now }
    ensures ahead { from ≤ℤ result.last }
    ensures within { IsAhead result.last intervals.now }
    ensures same { (z : ℤ) → from ≤ℤ z → z ≤ℤ result.last → holds intervals.now z ≡ result.held }
{
    match intervals {
        [] => Run {
            held: false,
            last: i128::MAX,
        },
        [first, ..] if from < first.low => Run {
            held: false,
            last: first.low - 1,
        },
        [first, ..] => Run {
            held: true,
            last: first.high,
        },
    }
}

// The intervals that matter past a run.
fn past(intervals: &[Interval], run: Run) -> &[Interval]
    requires { IsAhead run.last intervals.now }
    ensures ahead { IsAhead (run.last +ℤ pos 1) result.now }
    ensures same { (z : ℤ) → run.last <ℤ z → holds result.now z ≡ holds intervals.now z }
{
    match intervals {
        [first, rest @ ..] if first.high == run.last => rest,
        _ => intervals,
    }
}

// Goes on from `from` with numbers that are kept, or that are not, and answers since when an
// interval is open then.
#[tactic(auto, using(crate::proofs::Rising::rises_later, crate::proofs::Rising::holds_after))]
fn turn(
    kept: &mut Vec<Interval>,
    since: Option<i128>,
    from: i128,
    keeps: bool,
) -> Result<Option<i128>, AllocError>
    requires { IsSwept kept.old.items since from }
    ensures order { IfOk result (λ now. IsSwept kept.new.items now (from +ℤ pos 1)) }
    ensures before { IfOk result
        (λ now. (z : ℤ) → z <ℤ from → swept kept.new.items now z ≡ swept kept.old.items since z) }
    ensures after { IfOk result (λ now. (z : ℤ) → from ≤ℤ z → swept kept.new.items now z ≡ keeps) }
{
    match (since, keeps) {
        (None, false) => Ok(None),
        (None, true) => Ok(Some(from)),
        (Some(low), true) => Ok(Some(low)),
        (Some(low), false) => {
            end(kept, low, from - 1)?;
            Ok(None)
        }
    }
}

// Ends an interval that is open at the greatest number.
#[tactic(auto, using(crate::proofs::Rising::rises_later))]
fn close(kept: &mut Vec<Interval>, since: Option<i128>) -> Result<(), AllocError>
    requires { IsSwept kept.old.items since (GREATEST +ℤ pos 1) }
    ensures order { OnOk result (IsRising kept.new.items) }
    ensures same { OnOk result
        ((z : ℤ) → z ≤ℤ GREATEST → holds kept.new.items z ≡ swept kept.old.items since z) }
{
    match since {
        None => Ok(()),
        Some(low) => end(kept, low, i128::MAX),
    }
}

// Ends the interval that is open since `low`, at `high`.
#[tactic(auto, using(crate::proofs::Rising::rises_append, crate::proofs::Rising::holds_append))]
fn end(kept: &mut Vec<Interval>, low: i128, high: i128) -> Result<(), AllocError>
    requires { IsSwept kept.old.items (Some low) (high +ℤ pos 1) }
    ensures order { OnOk result (Rises LEAST kept.new.items (high +ℤ pos 2)) }
    ensures same { OnOk result
        ((z : ℤ) → holds kept.new.items z ≡ (holds kept.old.items z || is_between low high z)) }
{
    kept.push(Interval { low, high })?;
    Ok(())
}
