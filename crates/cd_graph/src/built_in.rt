//! The nodes that every graph begins with.
ghost use Rattle.std.specs.Prelude.{◌≡◌, [], ◌∷◌, IfOk, codes, map};
ghost use Rattle.cd_sets.specs.Atoms.{IsAtom};
ghost use Rattle.cd_model.specs.Formula.{formulas_of, Pair, Record, Or};
ghost use Rattle.cd_model.specs.BuiltIns.{node_named, all_ints, chars_to, all_atoms, atoms_of};
ghost use Rattle.cd_model.specs.BuiltIns.{data_formula, built_ins};
ghost use Rattle.cd_graph.specs.PlainFormula.{plain};

use crate::fields::{FieldList, Fields};
use crate::formula::{Formula, Formulas};
use cd_sets::atom_set::AtomSet;
use cd_sets::char_set::CharSet;
use cd_sets::int_set::IntSet;
use cd_sets::node_id::NodeId;
use cd_syntax::builtin::BuiltinName;
use std::alloc::{AllocError, Global};

/// `Empty`: nothing.
pub const EMPTY: NodeId = NodeId(0);
/// `Any`: everything.
pub const ANY: NodeId = NodeId(1);
/// `Int`: the integers of 128 bits.
pub const INT: NodeId = NodeId(2);
/// `Char`: the characters.
pub const CHAR: NodeId = NodeId(3);
/// `Byte`: the characters up to U+00FF.
pub const BYTE: NodeId = NodeId(4);
/// `Atom`: the atoms.
pub const ATOM: NodeId = NodeId(5);
/// `Bool`: the atoms `false` and `true`.
pub const BOOL: NodeId = NodeId(6);
/// `String`: the sequences of characters.
pub const STRING: NodeId = NodeId(7);
/// `Arrow`: the functions.
pub const ARROW: NodeId = NodeId(8);
/// `Pair`: the pairs.
pub const PAIR: NodeId = NodeId(9);
/// `Record`: the records.
pub const RECORD: NodeId = NodeId(10);
/// `AnyXml`: the XML elements.
pub const ANY_XML: NodeId = NodeId(11);
/// `Data`: what holds no function.
pub const DATA: NodeId = NodeId(12);
/// The atom `nil`, which ends a sequence.
pub const NIL: NodeId = NodeId(13);

/// The node of a built-in type, in every graph.
pub fn node_of(name: BuiltinName) -> NodeId
    ensures { result ≡ node_named name }
{
    match name {
        BuiltinName::Empty => EMPTY,
        BuiltinName::Any => ANY,
        BuiltinName::Int => INT,
        BuiltinName::Char => CHAR,
        BuiltinName::Byte => BYTE,
        BuiltinName::Atom => ATOM,
        BuiltinName::Bool => BOOL,
        BuiltinName::String => STRING,
        BuiltinName::Arrow => ARROW,
        BuiltinName::Pair => PAIR,
        BuiltinName::Record => RECORD,
        BuiltinName::AnyXml => ANY_XML,
        BuiltinName::Data => DATA,
    }
}

// All integers.
fn integers(alloc: Global) -> Result<Formula, AllocError>
    ensures { IfOk result (λ is. plain is ≡ all_ints) }
{
    Ok(Formula::ints(IntSet::interval(alloc, i128::MIN, i128::MAX)?))
}

// The characters up to this one.
fn characters(alloc: Global, high: char) -> Result<Formula, AllocError>
    ensures { IfOk result (λ is. plain is ≡ chars_to high) }
{
    Ok(Formula::chars(CharSet::interval(alloc, '\0', high)?))
}

// This atom alone.
fn atom(alloc: Global, name: &str) -> Result<Formula, AllocError>
    requires { IsAtom name.now }
    ensures { IfOk result (λ is. plain is ≡ atoms_of (name.now ∷ [])) }
{
    Ok(Formula::atoms(AtomSet::one(alloc, name)?))
}

// All atoms.
fn atoms(alloc: Global) -> Formula
    ensures { plain result ≡ all_atoms }
{
    Formula::atoms(AtomSet::all(alloc))
}

// The records that have at each label nothing, or what is in this node.
fn records(alloc: Global, rest: NodeId) -> Result<Formula, AllocError>
    ensures { IfOk result (λ is. plain is ≡ Record [] rest) }
{
    let named = FieldList::of(Vec::new(alloc))?;
    Ok(Formula::record(Fields { named, rest }))
}

// The truth values.
fn truth_values(alloc: Global) -> Result<Formula, AllocError>
    ensures { IfOk result (λ is.
        plain is ≡ Or (formulas_of
        (atoms_of (codes "false" ∷ []) ∷ atoms_of (codes "true" ∷ []) ∷ []))) }
{
    let mut items = Vec::new(alloc);
    items.push(atom(alloc, "false")?)?;
    items.push(atom(alloc, "true")?)?;
    Ok(Formula::or(Formulas::of(items)?))
}

// The sequences of characters.
fn texts(alloc: Global) -> Result<Formula, AllocError>
    ensures { IfOk result (λ is.
        plain is ≡ Or (formulas_of (Pair CHAR STRING ∷ atoms_of (codes "nil" ∷ []) ∷ []))) }
{
    let mut items = Vec::new(alloc);
    items.push(Formula::pair(CHAR, STRING))?;
    items.push(atom(alloc, "nil")?)?;
    Ok(Formula::or(Formulas::of(items)?))
}

// What holds no function.
fn data_type(alloc: Global) -> Result<Formula, AllocError>
    ensures { IfOk result (λ is. plain is ≡ data_formula) }
{
    let mut items = Vec::new(alloc);
    items.push(integers(alloc)?)?;
    items.push(characters(alloc, '\u{10FFFF}')?)?;
    items.push(atoms(alloc))?;
    items.push(Formula::pair(DATA, DATA))?;
    items.push(records(alloc, DATA)?)?;
    items.push(Formula::xml(ATOM, DATA, DATA))?;
    Ok(Formula::or(Formulas::of(items)?))
}

// The formulas that every graph begins with.
pub(crate) fn built_ins(alloc: Global) -> Result<Vec<Formula>, AllocError>
    ensures { IfOk result (λ formulas. map plain formulas.items ≡ built_ins) }
{
    let mut items = Vec::new(alloc);
    items.push(Formula::none())?;
    items.push(Formula::all())?;
    items.push(integers(alloc)?)?;
    items.push(characters(alloc, '\u{10FFFF}')?)?;
    items.push(characters(alloc, '\u{FF}')?)?;
    items.push(atoms(alloc))?;
    items.push(truth_values(alloc)?)?;
    items.push(texts(alloc)?)?;
    items.push(Formula::arrow(EMPTY, ANY))?;
    items.push(Formula::pair(ANY, ANY))?;
    items.push(records(alloc, ANY)?)?;
    items.push(Formula::xml(ANY, ANY, ANY))?;
    items.push(data_type(alloc)?)?;
    items.push(atom(alloc, "nil")?)?;
    Ok(items)
}
