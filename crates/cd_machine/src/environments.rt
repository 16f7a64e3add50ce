//! Environments, which share what they have in common.
ghost use Rattle.std.specs.Prelude.{◌≡◌, IfOk};

use cd_cells::names::is_named;
use cd_cells::{Part, ValueId, Values};
use std::alloc::{AllocError, Global};
use std::marker::Model;

/// The number of an environment. That of the empty one is 0.
#[derive(Clone, Copy)]
pub(crate) struct EnvId(pub(crate) u32);

/// A name with its value, and the environment around it.
#[derive(Clone, Copy)]
pub(crate) struct Node {
    pub(crate) part: Part,
    pub(crate) around: u32,
}

/// Environments, to which others are only added. A contract sees each as the names that it has,
/// the innermost first.
#[derive(Drop)]
pub(crate) struct Environments {
    nodes: Vec<Node>,
}

impl Model for Environments {
    ghost use Rattle.std.specs.Prelude.{List};
    ghost use Rattle.cd_cells.specs.declared.cell.Part.{Part as APart};
    ghost use Rattle.cd_machine.specs.Inner.Nodes.{lists, AreOrdered};

    ghost Value = { List (List APart) };

    ghost view = { λ environments. lists environments.nodes.items };

    ghost invariant = { λ environments. AreOrdered 0 environments.nodes.items };
}

// A number in 32 bits.
fn small(n: usize) -> Result<u32, AllocError>
    ensures { IfOk result (λ small. small ≡ n) }
{
    match u32::try_from(n) {
        Ok(small) => Ok(small),
        Err(_) => Err(AllocError),
    }
}

impl Environments {
    ghost use Rattle.std.specs.Prelude.{◌<◌, List, [], ◌∷◌, ◌++◌, length, OnOk, MatchOption, IfSome};
    ghost use Rattle.std.specs.Prelude.{option_map};
    ghost use Rattle.std.specs.Str.{chars};
    ghost use Rattle.cd_rules.specs.InRow as row;
    ghost use Rattle.cd_cells.specs.Cells.{thing_at};
    ghost use Rattle.cd_cells.specs.Table.{table};
    ghost use Rattle.cd_code.specs.Compiled.{env_of, ArePartsOf};
    ghost use Rattle.cd_model.specs.AllOf.{AllOf};
    ghost use Rattle.cd_cells.specs.declared.values.Values.{Values as AllValues};
    ghost use Rattle.cd_machine.specs.Inner.Nodes.{parts_at, Longer};

    /// The empty environment.
    pub(crate) fn new(alloc: Global) -> Environments
        ensures { result ≡ [] ∷ [] }
    {
        Environments {
            nodes: Vec::new(alloc),
        }
    }

    /// The allocator of their memory.
    pub(crate) fn allocator(&self) -> Global {
        *self.nodes.allocator()
    }

    /// Adds an environment: a name with its value, and what stands around it.
    pub(crate) fn add(&mut self, part: Part, around: EnvId) -> Result<EnvId, AllocError>
        requires { around.0 < length self.old }
        ensures number { IfOk result (λ id. id.0 ≡ length self.old) }
        ensures added { OnOk result
            (self.new ≡ self.old ++ (part ∷ parts_at self.old around.0) ∷ []) }
        ensures grows { Longer self.old self.new }
        ensures each { (values : AllValues) → AllOf (ArePartsOf values) self.old
            → ArePartsOf values (part ∷ []) → AllOf (ArePartsOf values) self.new }
    {
        self.nodes.push(Node {
            part,
            around: around.0,
        })?;
        Ok(EnvId(small(self.nodes.len())?))
    }

    /// Adds environments, so that these names stand before those of another one.
    pub(crate) fn add_all(&mut self, parts: &[Part], around: EnvId) -> Result<EnvId, AllocError>
        requires { around.0 < length self.old }
        ensures within { IfOk result (λ id. id.0 < length self.new) }
        ensures is { IfOk result (λ id.
            parts_at self.new id.0 ≡ parts.now ++ parts_at self.old around.0) }
        ensures grows { Longer self.old self.new }
        ensures each { (values : AllValues) → AllOf (ArePartsOf values) self.old
            → ArePartsOf values parts.now → AllOf (ArePartsOf values) self.new }
    {
        let mut env = around;
        let mut left = parts;
        while let Some((part, rest)) = left.split_last() {
            env = self.add(*part, env)?;
            left = rest;
        }
        Ok(env)
    }

    /// The environment of these names.
    pub(crate) fn of_parts(&mut self, parts: &[Part]) -> Result<EnvId, AllocError>
        ensures within { IfOk result (λ id. id.0 < length self.new) }
        ensures is { IfOk result (λ id. parts_at self.new id.0 ≡ parts.now) }
        ensures grows { Longer self.old self.new }
        ensures each { (values : AllValues) → AllOf (ArePartsOf values) self.old
            → ArePartsOf values parts.now → AllOf (ArePartsOf values) self.new }
    {
        // The environments are known where a field of them is read.
        let _count = self.nodes.len();
        self.add_all(parts, EnvId(0))
    }

    // The innermost name of an environment, unless it is empty.
    fn node(&self, number: u32) -> Option<Node>
        ensures { MatchOption result (parts_at self.now number ≡ [])
            (λ node. (parts_at self.now number ≡ node.part ∷ parts_at self.now node.around)
            × (node.around < number)) }
    {
        let nodes = self.nodes.as_slice();
        if number == 0 {
            return None;
        }
        match nodes.get(number as usize - 1) {
            Some(node) => Some(*node),
            None => None,
        }
    }

    /// The value of a name, if it stands in an environment.
    pub(crate) fn find(&self, values: &Values, env: EnvId, name: &str) -> Option<ValueId>
        requires { AllOf (ArePartsOf values.now) self.now }
        ensures within { IfSome result (λ id. id.0 < length (table values.now)) }
        ensures found { let found = option_map (λ id. thing_at (table values.now) id.0) result in
            found ≡ row.thing_at (env_of values.now (parts_at self.now env.0)) (chars name.now) }
    {
        let mut number = env.0;
        while let Some(node) = self.node(number) {
            if is_named(values, node.part.label, name) {
                return Some(node.part.id());
            }
            number = node.around;
        }
        None
    }

    /// Puts the names of an environment after others.
    pub(crate) fn put_parts(&self, env: EnvId, parts: &mut Vec<Part>) -> Result<(), AllocError>
        ensures { OnOk result (parts.new.items ≡ parts.old.items ++ parts_at self.now env.0) }
    {
        let mut number = env.0;
        while let Some(node) = self.node(number) {
            parts.push(node.part)?;
            number = node.around;
        }
        Ok(())
    }
}
