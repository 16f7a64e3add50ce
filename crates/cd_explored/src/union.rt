//! The union of what steps give.
ghost use Rattle.std.specs.Prelude.{◌≡◌, slice_get, IfOk};
ghost use Rattle.cd_model.specs.AllOf.{AllOf};
ghost use Rattle.cd_model.specs.Thing.{IsElement};
ghost use Rattle.cd_graph.specs.PlainFormula.{plain};
ghost use Rattle.cd_matching.specs.Sequences.{thing_of};
ghost use Rattle.cd_explored.specs.Inner.Made.{IsComing, IsConstant, IsPut, IsMember};
ghost use Rattle.cd_explored.specs.Inner.Made.{IsUnion};
ghost use Rattle.cd_explored.specs.Inner.Plan.{plain_plan, IsSoundPlan, IsSoundStep};
ghost use Rattle.cd_explored.specs.Inner.Wanted.{GrowTo};

use crate::givers::Giver;
use crate::nodes::pair;
use crate::plan::Plan;
use crate::step::Step;
use crate::texts::text_of;
use crate::want::Want;
use crate::wants::Wants;
use cd_builders::{atom, character, integer, nil};
use cd_graph::{Formula, Formulas};
use cd_products::question_formula;
use cd_syntax::constant::Constant;
use std::alloc::AllocError;

/// What comes to a place.
pub(crate) fn comes(plan: &Plan<'_, '_>, number: usize) -> Result<Formula, AllocError>
    requires { IsSoundPlan (plain_plan plan.now) }
    ensures { IfOk result (λ is. IsComing (plain_plan plan.now)
        (slice_get (plain_plan plan.now).places number) (plain is)) }
{
    match plan.explored.places.get(number) {
        Some(place) => question_formula(plan.alloc, plan.graph, &place.question),
        None => Ok(Formula::none()),
    }
}

/// The union of what steps give.
pub(crate) fn union_of(
    plan: &Plan<'_, '_>,
    wants: &mut Wants,
    variable: usize,
    givers: &[Giver<'_>],
) -> Result<Formula, AllocError>
    requires plan { IsSoundPlan (plain_plan plan.now) }
    requires constants { AllOf (λ giver. IsSoundStep giver.step) givers.now }
    ensures made { IfOk result
        (λ is. IsUnion (plain_plan plan.now) wants.new variable givers.now (plain is)) }
    ensures grow { GrowTo wants.old wants.new }
{
    let mut members = Vec::new(plan.alloc);
    for giver in givers {
        members.push(member(plan, wants, variable, giver)?)?;
    }
    Ok(Formula::or(Formulas::of(members)?))
}

// What a step gives.
fn member(
    plan: &Plan<'_, '_>,
    wants: &mut Wants,
    variable: usize,
    giver: &Giver<'_>,
) -> Result<Formula, AllocError>
    requires plan { IsSoundPlan (plain_plan plan.now) }
    requires constant { IsSoundStep giver.now.step }
    ensures made { IfOk result
        (λ is. IsMember (plain_plan plan.now) wants.new variable giver.now (plain is)) }
    ensures grow { GrowTo wants.old wants.new }
{
    match giver.step {
        Step::Takes(_) => comes(plan, giver.number),
        Step::Puts(_, constant) => put(plan, wants, giver.number, constant),
        Step::Leads(_, _) => Ok(Formula::none()),
        Step::Gathers(_, item, next) => {
            let next = Want::Captures(variable, next);
            pair(plan, wants, Want::Comes(item), next)
        }
    }
}

// The constant of a Put at a place.
fn put(
    plan: &Plan<'_, '_>,
    wants: &mut Wants,
    number: usize,
    constant: &Constant,
) -> Result<Formula, AllocError>
    requires { IsElement (thing_of constant.now) }
    ensures made { IfOk result (λ is. IsPut (plain_plan plan.now) wants.new
        (slice_get (plain_plan plan.now).places number) constant.now (plain is)) }
    ensures grow { GrowTo wants.old wants.new }
{
    match plan.explored.places.get(number) {
        Some(place) => constant_of(plan, wants, place.number, constant),
        None => Ok(Formula::none()),
    }
}

// A constant of a node of the kernel.
fn constant_of(
    plan: &Plan<'_, '_>,
    wants: &mut Wants,
    number: usize,
    constant: &Constant,
) -> Result<Formula, AllocError>
    requires { IsElement (thing_of constant.now) }
    ensures made { IfOk result
        (λ is. IsConstant (plain_plan plan.now) wants.new number constant.now (plain is)) }
    ensures grow { GrowTo wants.old wants.new }
{
    match constant {
        Constant::Int(n) => integer(plan.alloc, *n),
        Constant::Char(c) => character(plan.alloc, *c),
        Constant::Atom(name) => atom(plan.alloc, name),
        Constant::Text(text) => text_of(plan, wants, number, 1, text.first_character()),
        Constant::Nil => nil(plan.alloc),
    }
}
