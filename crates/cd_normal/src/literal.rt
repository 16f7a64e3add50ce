use cd_graph::Formula;

/// A formula that is no connective, and whether a thing is to be in it or outside it. A list of
/// them is a conjunct.
#[derive(Clone, Copy)]
pub(crate) struct Literal<'g> {
    pub(crate) wanted: bool,
    pub(crate) formula: &'g Formula,
}
