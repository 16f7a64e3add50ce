//! How conjuncts in the making go on. Of a list of them the last is worked at.
ghost use Rattle.std.specs.Prelude.{◌≡◌, [], ◌∷◌, ◌++◌, true, map, IfOk, OnOk};
ghost use Rattle.std.specs.Prelude.{if◌then◌else◌};
ghost use Rattle.cd_graph.specs.PlainFormula.{plain, plain_formulas};
ghost use Rattle.cd_model.specs.Formula.{Or, formulas_of};
ghost use Rattle.cd_rules.specs.Dnf.{when};
ghost use Rattle.cd_rules.specs.KindDnf.{is_of as is_of_kind, literal_by};
ghost use Rattle.cd_rules.specs.PartialConjuncts.{partial, each_signed};
ghost use Rattle.cd_normal.specs.ConjunctsGoOn.{GoesBy};
ghost use Rattle.cd_normal.specs.Inner.NextConjuncts.{with_left, with_each, with_conjuncts};
ghost use Rattle.cd_normal.specs.Inner.NextConjuncts.{next_conjuncts, refused_of, wanted_of};
ghost use Rattle.cd_normal.specs.Inner.NextConjuncts.{wanted_in, is_flat, are_flat};
ghost use Rattle.cd_normal.specs.Inner.PlainConjunct.{plain_literal};
ghost use Rattle.cd_normal.specs.Inner.PlainPartial.{plain_partial, plain_partials};

use crate::advance::Advance;
use crate::kind::is_of;
use crate::literal::Literal;
use crate::of_conjunct::clause_of;
use crate::partial::PartialConjunct;
use cd_graph::{Formula, Formulas};
use std::alloc::AllocError;

/// Goes on with the last conjunct by its next formula. Where none is left of it, it is taken away,
/// and its clause is given.
pub(crate) fn go_on<'g>(conjuncts: &mut Vec<PartialConjunct<'g>>) -> Result<Advance<'g>, AllocError>
    ensures { IfOk result
        (GoesBy (plain_partials conjuncts.old.items) (plain_partials conjuncts.new.items)) }
{
    match conjuncts.pop() {
        None => Ok(Advance::Nothing),
        Some(top) => go_on_with(conjuncts, top),
    }
}

// Goes on with a conjunct that was taken off the others.
fn go_on_with<'g>(
    conjuncts: &mut Vec<PartialConjunct<'g>>,
    top: PartialConjunct<'g>,
) -> Result<Advance<'g>, AllocError>
    ensures { IfOk result (GoesBy (plain_partial top.entry ∷ plain_partials conjuncts.old.items)
        (plain_partials conjuncts.new.items)) }
{
    let mut top = top;
    match top.left.pop() {
        None => Ok(Advance::Complete(clause_of(
            *conjuncts.allocator(),
            top.kind,
            top.conjunct.as_slice(),
        )?)),
        Some(next) => {
            meet(conjuncts, top, next)?;
            Ok(Advance::Went)
        }
    }
}

// Puts on the others what a conjunct becomes by its next formula.
fn meet<'g>(
    conjuncts: &mut Vec<PartialConjunct<'g>>,
    top: PartialConjunct<'g>,
    next: Literal<'g>,
) -> Result<(), AllocError>
    ensures { OnOk result (plain_partials conjuncts.new.items
        ≡ next_conjuncts (plain_partial top.entry) (plain next.entry.formula.now) next.entry.wanted
        ++ plain_partials conjuncts.old.items) }
{
    match next.formula {
        Formula::None => keep_if(conjuncts, top, !next.wanted),
        Formula::All => keep_if(conjuncts, top, next.wanted),
        Formula::And(formulas) if next.wanted => unfold(conjuncts, top, formulas, true),
        Formula::And(formulas) => divide(conjuncts, top, formulas, false),
        Formula::Or(formulas) if next.wanted => want_one(conjuncts, top, formulas),
        Formula::Or(formulas) if are_flat(formulas) => refuse_each(conjuncts, top, formulas),
        Formula::Or(formulas) => unfold(conjuncts, top, formulas, false),
        Formula::Not(inner) => ask(conjuncts, top, inner, !next.wanted),
        Formula::Ints(_)
        | Formula::Chars(_)
        | Formula::Atoms(_)
        | Formula::Pair(_, _)
        | Formula::Xml(_, _, _)
        | Formula::Record(_)
        | Formula::Arrow(_, _) => extend(conjuncts, top, next),
    }
}

// Whether each of the formulas is a literal, or a union of such.
#[cycle(are_flat)]
fn are_flat(formulas: &Formulas) -> bool
    ensures { result ≡ are_flat (plain_formulas formulas.now) }
{
    for formula in formulas.items() {
        if !is_flat(formula) {
            return false;
        }
    }
    true
}

// Whether a formula is a literal, or a union of such.
#[cycle(are_flat)]
fn is_flat(formula: &Formula) -> bool
    ensures { result ≡ is_flat (plain formula.now) }
{
    match formula {
        Formula::Or(formulas) => are_flat(formulas),
        Formula::None | Formula::All | Formula::And(_) | Formula::Not(_) => false,
        Formula::Ints(_)
        | Formula::Chars(_)
        | Formula::Atoms(_)
        | Formula::Pair(_, _)
        | Formula::Xml(_, _, _)
        | Formula::Record(_)
        | Formula::Arrow(_, _) => true,
    }
}

// Puts a conjunct on the others, or drops it.
fn keep_if<'g>(
    conjuncts: &mut Vec<PartialConjunct<'g>>,
    top: PartialConjunct<'g>,
    kept: bool,
) -> Result<(), AllocError>
    ensures { OnOk result (plain_partials conjuncts.new.items
        ≡ with_conjuncts (when kept) (plain_partial top.entry)
        ++ plain_partials conjuncts.old.items) }
{
    if kept {
        conjuncts.push(top)?;
    }
    Ok(())
}

// Puts a conjunct on the others that has these formulas before those that are left.
fn unfold<'g>(
    conjuncts: &mut Vec<PartialConjunct<'g>>,
    top: PartialConjunct<'g>,
    formulas: &'g Formulas,
    wanted: bool,
) -> Result<(), AllocError>
    ensures { OnOk result (plain_partials conjuncts.new.items
        ≡ with_left (each_signed (plain_formulas formulas.now) wanted) (plain_partial top.entry)
        ∷ plain_partials conjuncts.old.items) }
{
    let mut top = top;
    top.ask_each(formulas, wanted)?;
    Ok(conjuncts.push(top)?)
}

// Puts a conjunct on the others that refuses each of these literals.
fn refuse_each<'g>(
    conjuncts: &mut Vec<PartialConjunct<'g>>,
    top: PartialConjunct<'g>,
    formulas: &'g Formulas,
) -> Result<(), AllocError>
    ensures { OnOk result (plain_partials conjuncts.new.items
        ≡ partial (plain_partial top.entry).kind
        ((plain_partial top.entry).conjunct
        ++ refused_of (plain_partial top.entry).kind (plain_formulas formulas.now))
        (plain_partial top.entry).left
        ∷ plain_partials conjuncts.old.items) }
{
    let mut top = top;
    top.refuse_each(formulas)?;
    Ok(conjuncts.push(top)?)
}

// Puts a conjunct on the others that has this formula before those that are left.
fn ask<'g>(
    conjuncts: &mut Vec<PartialConjunct<'g>>,
    top: PartialConjunct<'g>,
    formula: &'g Formula,
    wanted: bool,
) -> Result<(), AllocError>
    ensures { OnOk result (plain_partials conjuncts.new.items
        ≡ with_left ((plain formula.now, wanted) ∷ []) (plain_partial top.entry)
        ∷ plain_partials conjuncts.old.items) }
{
    let mut top = top;
    top.ask(Literal { wanted, formula })?;
    Ok(conjuncts.push(top)?)
}

// Puts a conjunct on the others for each of the formulas, of which one is wanted. Of literals, and
// of unions of such, only the literals of the kind get one.
fn want_one<'g>(
    conjuncts: &mut Vec<PartialConjunct<'g>>,
    top: PartialConjunct<'g>,
    formulas: &'g Formulas,
) -> Result<(), AllocError>
    ensures { OnOk result (plain_partials conjuncts.new.items
        ≡ next_conjuncts (plain_partial top.entry) (Or (plain_formulas formulas.now)) true
        ++ plain_partials conjuncts.old.items) }
{
    if are_flat(formulas) {
        choose_copies(conjuncts, &top, formulas)
    } else {
        divide(conjuncts, top, formulas, true)
    }
}

// Puts a copy of a conjunct on the others for each literal of the kind in these, with that literal.
#[cycle(choose_copies)]
fn choose_copies<'g>(
    conjuncts: &mut Vec<PartialConjunct<'g>>,
    top: &PartialConjunct<'g>,
    formulas: &'g Formulas,
) -> Result<(), AllocError>
    ensures { OnOk result (plain_partials conjuncts.new.items
        ≡ with_conjuncts (wanted_of (plain_partial top.now).kind (plain_formulas formulas.now))
        (plain_partial top.now)
        ++ plain_partials conjuncts.old.items) }
{
    let formulas = formulas.items();
    let mut index = formulas.len();
    while index > 0 {
        index -= 1;
        choose_copies_in(conjuncts, top, &formulas[index])?;
    }
    Ok(())
}

// The same for each literal in one formula.
#[cycle(choose_copies)]
fn choose_copies_in<'g>(
    conjuncts: &mut Vec<PartialConjunct<'g>>,
    top: &PartialConjunct<'g>,
    formula: &'g Formula,
) -> Result<(), AllocError>
    ensures { OnOk result (plain_partials conjuncts.new.items
        ≡ with_conjuncts (wanted_in (plain_partial top.now).kind (plain formula.now))
        (plain_partial top.now)
        ++ plain_partials conjuncts.old.items) }
{
    match formula {
        Formula::Or(formulas) => choose_copies(conjuncts, top, formulas),
        Formula::None
        | Formula::All
        | Formula::And(_)
        | Formula::Not(_)
        | Formula::Ints(_)
        | Formula::Chars(_)
        | Formula::Atoms(_)
        | Formula::Pair(_, _)
        | Formula::Xml(_, _, _)
        | Formula::Record(_)
        | Formula::Arrow(_, _) => choose_copy(conjuncts, top, formula),
    }
}

// Puts a copy of a conjunct on the others with this literal, if it is of the kind.
fn choose_copy<'g>(
    conjuncts: &mut Vec<PartialConjunct<'g>>,
    top: &PartialConjunct<'g>,
    formula: &'g Formula,
) -> Result<(), AllocError>
    ensures { OnOk result (plain_partials conjuncts.new.items
        ≡ with_conjuncts (if is_of_kind (plain_partial top.now).kind (plain formula.now)
        then (record { wanted = true; is = plain formula.now } ∷ []) ∷ [] else [])
        (plain_partial top.now)
        ++ plain_partials conjuncts.old.items) }
{
    if is_of(top.kind, formula) {
        conjuncts.push(top.copy_choosing(formula)?)?;
    }
    Ok(())
}

// Puts a conjunct on the others for each of the formulas, with that of the first at the end.
fn divide<'g>(
    conjuncts: &mut Vec<PartialConjunct<'g>>,
    top: PartialConjunct<'g>,
    formulas: &'g Formulas,
    wanted: bool,
) -> Result<(), AllocError>
    ensures { OnOk result (plain_partials conjuncts.new.items
        ≡ with_each (each_signed (plain_formulas formulas.now) wanted) (plain_partial top.entry)
        ++ plain_partials conjuncts.old.items) }
{
    match formulas.items() {
        [] => Ok(()),
        [first, rest @ ..] => {
            ask_copies(conjuncts, &top, rest, wanted)?;
            ask(conjuncts, top, first, wanted)
        }
    }
}

// Puts a copy of a conjunct on the others for each of the formulas, likewise.
fn ask_copies<'g>(
    conjuncts: &mut Vec<PartialConjunct<'g>>,
    top: &PartialConjunct<'g>,
    formulas: &'g [Formula],
    wanted: bool,
) -> Result<(), AllocError>
    ensures { OnOk result (plain_partials conjuncts.new.items
        ≡ with_each (each_signed (formulas_of (map plain formulas.now)) wanted)
        (plain_partial top.now)
        ++ plain_partials conjuncts.old.items) }
{
    let mut index = formulas.len();
    while index > 0 {
        index -= 1;
        conjuncts.push(top.copy_with(Literal {
            wanted,
            formula: &formulas[index],
        })?)?;
    }
    Ok(())
}

// Puts on the others a conjunct that meets a literal: where its formula is of another kind it is
// dropped, if the literal is wanted, and else stays as it is.
fn extend<'g>(
    conjuncts: &mut Vec<PartialConjunct<'g>>,
    top: PartialConjunct<'g>,
    literal: Literal<'g>,
) -> Result<(), AllocError>
    ensures { OnOk result (plain_partials conjuncts.new.items
        ≡ with_conjuncts (literal_by
        (is_of_kind (plain_partial top.entry).kind (plain literal.entry.formula.now))
        literal.entry.wanted (plain literal.entry.formula.now)) (plain_partial top.entry)
        ++ plain_partials conjuncts.old.items) }
{
    if is_of(top.kind, literal.formula) {
        choose(conjuncts, top, literal)
    } else {
        keep_if(conjuncts, top, !literal.wanted)
    }
}

// Puts on the others a conjunct with this literal.
fn choose<'g>(
    conjuncts: &mut Vec<PartialConjunct<'g>>,
    top: PartialConjunct<'g>,
    literal: Literal<'g>,
) -> Result<(), AllocError>
    ensures { OnOk result (plain_partials conjuncts.new.items
        ≡ with_conjuncts ((plain_literal literal.entry ∷ []) ∷ []) (plain_partial top.entry)
        ++ plain_partials conjuncts.old.items) }
{
    let mut top = top;
    top.choose(literal)?;
    Ok(conjuncts.push(top)?)
}
