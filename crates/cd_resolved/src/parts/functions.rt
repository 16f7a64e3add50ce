//! The functions of a program, by their places and names.
ghost use Rattle.std.specs.Prelude.{◌≡◌, ◌∷◌, List, Some, map, option_map, IfOk, OnOk};
ghost use Rattle.std.specs.Str.{chars};
ghost use Rattle.cd_program.specs.Expr.{FunctionTree as AFunction};
ghost use Rattle.cd_program.specs.PlainExpr.{plain_function};
ghost use Rattle.cd_program.specs.PlainProgram.{plain_program};
ghost use Rattle.cd_evaluation.specs.ProgramFunctions.{all_functions, function_at, declared_at};
ghost use Rattle.std.specs.List.{slice_get};
ghost use Rattle.cd_resolved.specs.Inner.ByPlace.{AreByPlace, HaveNumbers, IsNumberOf};
ghost use Rattle.cd_resolved.specs.Inner.ByPlace.{AreByName, Enters};
ghost use Rattle.cd_resolved.specs.Inner.PlainParts.{functions_of};

use crate::parts::key::Key;
use cd_cells::Slots;
use cd_program::expr::FunctionTree;
use cd_program::program::Program;
use cd_syntax::name::Name;
use indexmap::IndexMap;
use std::alloc::{AllocError, Global};
use std::marker::Model;

/// A function, and its number among all of a program.
#[derive(Clone, Copy)]
pub(crate) struct Numbered<'p> {
    pub(crate) function: &'p FunctionTree,
    pub(crate) number: usize,
}

/// The functions of a program, by their places and names. A contract sees the program.
#[derive(Drop)]
pub struct Functions<'p> {
    program: &'p Program,
    by_place: Slots<Numbered<'p>>,
    by_name: IndexMap<Key<'p>, usize>,
}

impl<'p> Model for Functions<'p> {
    ghost use Rattle.cd_program.specs.contracts.program.Program as the_program;
    ghost use Rattle.cd_program.specs.declared.program.Program.{Program as AProgram};

    ghost Value = { AProgram };

    ghost coded = { the_program.the_row.coded };

    ghost use Rattle.cd_program.specs.PlainProgram.{plain_program};
    ghost use Rattle.cd_evaluation.specs.ProgramFunctions.{all_functions};
    ghost use Rattle.cd_resolved.specs.Inner.ByPlace.{AreByPlace, HaveNumbers, AreByName};

    ghost view = { λ functions. functions.program.now };

    ghost invariant = { λ functions.
        AreByPlace (all_functions (plain_program functions.program.now)) functions.by_place
        × HaveNumbers (all_functions (plain_program functions.program.now)) functions.by_place
        × AreByName (plain_program functions.program.now).functions functions.by_name };
}

impl<'p> Functions<'p> {
    /// Those of a program, of which these are all functions.
    ///
    /// # Errors
    ///
    /// Want of memory.
    pub fn new(
        alloc: Global,
        program: &'p Program,
        all: &[&'p FunctionTree],
    ) -> Result<Functions<'p>, AllocError>
        requires { functions_of all.now ≡ all_functions (plain_program program.now) }
        ensures { IfOk result (λ functions. functions ≡ program.now) }
    {
        let by_place = by_place(alloc, all)?;
        let by_name = by_name(alloc, program.functions.items())?;
        Ok(Functions {
            program,
            by_place,
            by_name,
        })
    }

    /// The program.
    pub fn program(&self) -> &'p Program
        ensures { result.now ≡ self.now }
    {
        self.program
    }

    /// The function that begins at a place.
    pub fn function(&self, at: usize) -> Option<&'p FunctionTree>
        ensures { option_map (λ f. plain_function f.now) result
            ≡ function_at (plain_program self.now) at }
    {
        match self.by_place.get(at) {
            Some(one) => Some(one.function),
            None => None,
        }
    }

    /// The number of the function that begins at a place, among all functions of the program.
    pub(crate) fn number(&self, at: usize) -> Option<usize>
        ensures { (f : AFunction) → function_at (plain_program self.now) at ≡ Some f
            → IsNumberOf (all_functions (plain_program self.now)) f result }
    {
        match self.by_place.get(at) {
            Some(one) => Some(one.number),
            None => None,
        }
    }

    /// The place of the function that is declared by a name.
    pub fn declared(&self, name: &str) -> Option<usize>
        ensures { result ≡ declared_at (plain_program self.now) (chars name.now) }
    {
        self.by_name.get(&Key { text: name }).copied()
    }
}

// Functions by their places, with their numbers.
fn by_place<'p>(alloc: Global, all: &[&'p FunctionTree]) -> Result<Slots<Numbered<'p>>, AllocError>
    ensures places { IfOk result (λ slots. AreByPlace (functions_of all.now) slots) }
    ensures numbers { IfOk result (λ slots. HaveNumbers (functions_of all.now) slots) }
{
    let mut slots = Slots::new(alloc);
    let mut index = all.len();
    while index > 0 {
        index -= 1;
        put(&mut slots, all[index], index)?;
    }
    Ok(slots)
}

// Puts a function, which has this number, before others.
fn put<'p>(
    slots: &mut Slots<Numbered<'p>>,
    function: &'p FunctionTree,
    number: usize,
) -> Result<(), AllocError>
    ensures place { OnOk result ((rest : List AFunction) → AreByPlace rest slots.old
        → AreByPlace (plain_function function.now ∷ rest) slots.new) }
    ensures number { (all : List AFunction)
        → slice_get all number ≡ Some (plain_function function.now)
        → HaveNumbers all slots.old → HaveNumbers all slots.new }
{
    slots.put(function.at, Numbered { function, number })
}

// The places of functions by their names.
fn by_name<'p>(
    alloc: Global,
    functions: &'p [FunctionTree],
) -> Result<IndexMap<Key<'p>, usize>, AllocError>
    ensures { IfOk result (λ places. AreByName (map plain_function functions.now) places) }
{
    let mut places = IndexMap::new(alloc);
    let mut index = functions.len();
    while index > 0 {
        index -= 1;
        name(&mut places, &functions[index])?;
    }
    Ok(places)
}

// Puts the name of a function before others, if it has one.
fn name<'p>(
    places: &mut IndexMap<Key<'p>, usize>,
    function: &'p FunctionTree,
) -> Result<(), AllocError>
    ensures { OnOk result ((rest : List AFunction) → AreByName rest places.old
        → AreByName (plain_function function.now ∷ rest) places.new) }
{
    let Some(own) = &function.name else {
        return Ok(());
    };
    enter(places, own, function.at)
}

// Gives a name this place.
fn enter<'p>(
    places: &mut IndexMap<Key<'p>, usize>,
    name: &'p Name,
    at: usize,
) -> Result<(), AllocError>
    ensures { OnOk result (Enters name.now at places.old places.new) }
{
    places.insert(
        Key {
            text: name.as_str(),
        },
        at,
    )?;
    Ok(())
}
