//! Tasks: what was given to each side, and which members of a clause are given to none.
ghost use Rattle.std.specs.Prelude.{◌≡◌, ◌++◌};
ghost use Rattle.cd_needs.specs.RecordType.{record_types};
ghost use Rattle.cd_needs.specs.PlainReasons.{plain_labels};
ghost use Rattle.cd_rules.specs.Rows.{labels_of};

use cd_graph::fields::Fields;
use cd_needs::reasons::Chosen;
use cd_sets::node_id::NodeId;
use cd_syntax::name::Name;
use std::rc::Rc;

/// What is to do for a need of a clause: its refused members, or the wanted ones of functions, are
/// given to sides, until a thing made of elements of the sides' questions is right.
#[derive(Drop)]
pub enum Task<'g> {
    /// For a pair.
    Pair(PairTask),
    /// For an XML element.
    Xml(XmlTask),
    /// For the pair by which a function is outside one refused arrow.
    Arrow(ArrowTask),
    /// For a record.
    Record(RecordTask<'g>),
}

/// What is to do for a pair.
#[derive(Drop)]
pub struct PairTask {
    pub(crate) wanted: Rc<Vec<(NodeId, NodeId)>>,
    pub(crate) refused: Rc<Vec<(NodeId, NodeId)>>,
    // the refused pairs that the first part is outside, and those that the second is
    pub(crate) firsts: Vec<(NodeId, NodeId)>,
    pub(crate) seconds: Vec<(NodeId, NodeId)>,
    /// The refused pairs that are given to no part.
    pub left: Rc<Vec<(NodeId, NodeId)>>,
}

/// What is to do for an XML element.
#[derive(Drop)]
pub struct XmlTask {
    pub(crate) wanted: Rc<Vec<(NodeId, NodeId, NodeId)>>,
    pub(crate) refused: Rc<Vec<(NodeId, NodeId, NodeId)>>,
    // the refused ones that the tag is outside, those that the attributes are, and the content
    pub(crate) tags: Vec<(NodeId, NodeId, NodeId)>,
    pub(crate) attributes: Vec<(NodeId, NodeId, NodeId)>,
    pub(crate) contents: Vec<(NodeId, NodeId, NodeId)>,
    /// The refused ones that are given to no part.
    pub left: Rc<Vec<(NodeId, NodeId, NodeId)>>,
}

/// What is to do for a refused arrow.
#[derive(Drop)]
pub struct ArrowTask {
    pub(crate) refused: (NodeId, NodeId),
    pub(crate) wanted: Rc<Vec<(NodeId, NodeId)>>,
    // the wanted arrows whose argument the pair's is outside, and those in whose result the pair's
    // is
    pub(crate) outside: Vec<(NodeId, NodeId)>,
    pub(crate) results: Vec<(NodeId, NodeId)>,
    /// The wanted arrows that are given to neither.
    pub left: Rc<Vec<(NodeId, NodeId)>>,
}

/// What is to do for a record.
#[derive(Drop)]
pub struct RecordTask<'g> {
    pub(crate) wanted: Rc<Vec<&'g Fields>>,
    pub(crate) refused: Rc<Vec<&'g Fields>>,
    // the labels that they name
    pub(crate) labels: Rc<Vec<&'g Name>>,
    // the refused types that have a reason, the last one first
    pub(crate) given: Vec<Chosen<'g>>,
    /// The refused types that have none.
    pub left: Rc<Vec<&'g Fields>>,
    ghost labelled: { plain_labels labels.value.items
        ≡ labels_of (record_types wanted.value.items ++ record_types refused.value.items) },
}
