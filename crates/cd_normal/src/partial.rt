//! One conjunct in the making.
ghost use Rattle.std.specs.Prelude.{◌≡◌, [], ◌∷◌, ◌++◌, true, false, IfOk, OnOk};
ghost use Rattle.std.specs.Prelude.{if◌then◌else◌};
ghost use Rattle.cd_graph.specs.PlainFormula.{plain, plain_formulas};
ghost use Rattle.cd_rules.specs.KindDnf.{is_of as is_of_kind};
ghost use Rattle.cd_rules.specs.PartialConjuncts.{partial, each_signed};
ghost use Rattle.cd_normal.specs.Inner.NextConjuncts.{with_left, refused_in, refused_of};
ghost use Rattle.cd_normal.specs.Inner.PlainConjunct.{plain_literal, plain_conjunct};
ghost use Rattle.cd_normal.specs.Inner.PlainKind.{plain_kind};
ghost use Rattle.cd_normal.specs.Inner.PlainPartial.{signed, plain_left, plain_partial};

use crate::kind::{Kind, is_of};
use crate::literal::Literal;
use cd_graph::{Formula, Formulas};
use std::alloc::{AllocError, Global};

/// A conjunct in the making. The next one of the formulas that are left is the last of their list.
#[derive(Drop)]
pub(crate) struct PartialConjunct<'g> {
    pub(crate) kind: Kind,
    pub(crate) conjunct: Vec<Literal<'g>>,
    pub(crate) left: Vec<Literal<'g>>,
    /// Whether something was chosen since the conjunct was looked at.
    pub(crate) changed: bool,
}

impl<'g> PartialConjunct<'g> {
    /// A conjunct of which nothing is chosen yet.
    pub(crate) fn of(kind: Kind, left: Vec<Literal<'g>>) -> PartialConjunct<'g>
        ensures { plain_partial result
            ≡ partial (plain_kind kind) [] (plain_left left.entry.items) }
    {
        PartialConjunct {
            kind,
            conjunct: Vec::new(*left.allocator()),
            left,
            changed: false,
        }
    }

    /// The same conjunct, with this formula before those that are left.
    pub(crate) fn copy_with(&self, next: Literal<'g>) -> Result<PartialConjunct<'g>, AllocError>
        ensures { IfOk result (λ copy. plain_partial copy
            ≡ with_left (signed next.entry ∷ []) (plain_partial self.now)) }
    {
        let alloc = *self.left.allocator();
        let conjunct = Vec::from_slice(alloc, self.conjunct.as_slice())?;
        let mut left = Vec::with_capacity(alloc, self.left.len() + 1)?;
        left.extend_from_slice(self.left.as_slice())?;
        left.push(next)?;
        Ok(PartialConjunct {
            kind: self.kind,
            conjunct,
            left,
            changed: self.changed,
        })
    }

    /// The same conjunct, with this formula, which is wanted, in what is chosen.
    pub(crate) fn copy_choosing(
        &self,
        formula: &'g Formula,
    ) -> Result<PartialConjunct<'g>, AllocError>
        ensures { IfOk result (λ copy. plain_partial copy
            ≡ partial (plain_partial self.now).kind
            ((plain_partial self.now).conjunct
            ++ record { wanted = true; is = plain formula.now } ∷ [])
            (plain_partial self.now).left) }
    {
        let alloc = *self.left.allocator();
        let mut conjunct = Vec::with_capacity(alloc, self.conjunct.len() + 1)?;
        conjunct.extend_from_slice(self.conjunct.as_slice())?;
        conjunct.push(Literal {
            wanted: true,
            formula,
        })?;
        Ok(PartialConjunct {
            kind: self.kind,
            conjunct,
            left: Vec::from_slice(alloc, self.left.as_slice())?,
            changed: true,
        })
    }

    /// Adds a literal to what is chosen.
    pub(crate) fn choose(&mut self, literal: Literal<'g>) -> Result<(), AllocError>
        ensures { OnOk result (plain_partial self.new
            ≡ partial (plain_partial self.old).kind
            ((plain_partial self.old).conjunct ++ plain_literal literal.entry ∷ [])
            (plain_partial self.old).left) }
    {
        self.conjunct.push(literal)?;
        self.changed = self.changed || is_looked_at(self.kind, literal.wanted);
        Ok(())
    }

    /// Adds the literals of the kind among these, which are refused, to what is chosen.
    pub(crate) fn refuse_each(&mut self, formulas: &'g Formulas) -> Result<(), AllocError>
        ensures { OnOk result (plain_partial self.new
            ≡ partial (plain_partial self.old).kind
            ((plain_partial self.old).conjunct
            ++ refused_of (plain_partial self.old).kind (plain_formulas formulas.now))
            (plain_partial self.old).left) }
    {
        add_refused(&mut self.conjunct, self.kind, formulas)?;
        self.changed = self.changed || is_looked_at(self.kind, false);
        Ok(())
    }

    /// Puts a formula before those that are left.
    pub(crate) fn ask(&mut self, next: Literal<'g>) -> Result<(), AllocError>
        ensures { OnOk result (plain_partial self.new
            ≡ with_left (signed next.entry ∷ []) (plain_partial self.old)) }
    {
        Ok(self.left.push(next)?)
    }

    /// Puts formulas before those that are left.
    pub(crate) fn ask_each(
        &mut self,
        formulas: &'g Formulas,
        wanted: bool,
    ) -> Result<(), AllocError>
        ensures { OnOk result (plain_partial self.new
            ≡ with_left (each_signed (plain_formulas formulas.now) wanted)
            (plain_partial self.old)) }
    {
        add_each(&mut self.left, formulas, wanted)
    }
}

// Whether a literal of the things of this kind may change what the conjunct needs: a wanted one,
// and of functions a refused one.
fn is_looked_at(kind: Kind, wanted: bool) -> bool {
    match kind {
        Kind::Pair | Kind::Xml | Kind::Record => wanted,
        Kind::Function => true,
    }
}

// Adds the literals of a kind in these, which are refused.
#[cycle(add_refused)]
fn add_refused<'g>(
    conjunct: &mut Vec<Literal<'g>>,
    kind: Kind,
    formulas: &'g Formulas,
) -> Result<(), AllocError>
    ensures { OnOk result (plain_conjunct conjunct.new.items ≡ plain_conjunct conjunct.old.items
        ++ refused_of (plain_kind kind) (plain_formulas formulas.now)) }
{
    let formulas = formulas.items();
    conjunct.reserve(formulas.len())?;
    for formula in formulas {
        add_refused_in(conjunct, kind, formula)?;
    }
    Ok(())
}

// The same for the literals in one formula.
#[cycle(add_refused)]
fn add_refused_in<'g>(
    conjunct: &mut Vec<Literal<'g>>,
    kind: Kind,
    formula: &'g Formula,
) -> Result<(), AllocError>
    ensures { OnOk result (plain_conjunct conjunct.new.items ≡ plain_conjunct conjunct.old.items
        ++ refused_in (plain_kind kind) (plain formula.now)) }
{
    match formula {
        Formula::Or(formulas) => add_refused(conjunct, kind, formulas),
        Formula::None
        | Formula::All
        | Formula::And(_)
        | Formula::Not(_)
        | Formula::Ints(_)
        | Formula::Chars(_)
        | Formula::Atoms(_)
        | Formula::Pair(_, _)
        | Formula::Xml(_, _, _)
        | Formula::Record(_)
        | Formula::Arrow(_, _) => add_one_refused(conjunct, kind, formula),
    }
}

// Adds a literal, which is refused, if it is of the kind.
fn add_one_refused<'g>(
    conjunct: &mut Vec<Literal<'g>>,
    kind: Kind,
    formula: &'g Formula,
) -> Result<(), AllocError>
    ensures { OnOk result (plain_conjunct conjunct.new.items ≡ plain_conjunct conjunct.old.items
        ++ (if is_of_kind (plain_kind kind) (plain formula.now)
        then record { wanted = false; is = plain formula.now } ∷ [] else [])) }
{
    if is_of(kind, formula) {
        conjunct.push(Literal {
            wanted: false,
            formula,
        })?;
    }
    Ok(())
}

// Puts formulas before those that are left.
fn add_each<'g>(
    left: &mut Vec<Literal<'g>>,
    formulas: &'g Formulas,
    wanted: bool,
) -> Result<(), AllocError>
    ensures { OnOk result (plain_left left.new.items
        ≡ each_signed (plain_formulas formulas.now) wanted ++ plain_left left.old.items) }
{
    let formulas = formulas.items();
    left.reserve(formulas.len())?;
    let mut index = formulas.len();
    while index > 0 {
        index -= 1;
        left.push(Literal {
            wanted,
            formula: &formulas[index],
        })?;
    }
    Ok(())
}
