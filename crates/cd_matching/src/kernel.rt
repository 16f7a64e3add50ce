use cd_sets::node_id::NodeId;
use cd_syntax::constant::Constant;
use cd_syntax::name::Name;

/// A kernel: a pattern as a list of nodes that name each other by number. Variables are known by
/// their places in the list of names.
#[derive(Drop)]
pub struct Kernel {
    /// Its nodes.
    pub nodes: Vec<KernelNode>,
    /// The number of the node that takes the whole thing.
    pub root: usize,
    /// The names of its variables.
    pub variables: Vec<Name>,
}

/// A node of a kernel.
#[derive(Drop)]
pub enum KernelNode {
    /// The things of a type.
    Test(NodeId),
    /// Anything, which the variable captures.
    Bind(usize),
    /// Anything, where the variable is the constant.
    Put(usize, Constant),
    /// The pairs whose parts are taken.
    Pair(usize, usize),
    /// The XML elements whose tag, attributes and content are taken.
    Xml(usize, usize, usize),
    /// The records with these fields, and with true also those that have other fields beside them.
    Record(Vec<KernelField>, bool),
    /// What both take.
    Both(usize, usize),
    /// What the first takes, or else the second.
    First(usize, usize),
    /// The pairs whose parts are taken, where the variable captures the first part and then what it
    /// captures of the second.
    Gather(usize, usize, usize),
}

/// A field of a node.
#[derive(Drop)]
pub struct KernelField {
    /// Its label.
    pub label: Name,
    /// What may stand there.
    pub kind: FieldKind,
}

/// What may stand at a label.
#[derive(Clone, Copy)]
pub enum FieldKind {
    /// What the node with this number takes.
    Present(usize),
    /// Nothing, or a thing of this type.
    Optional(NodeId),
}
