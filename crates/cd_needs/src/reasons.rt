//! The reasons for which a record is outside refused types.
use cd_graph::fields::Fields;
use cd_syntax::name::Name;

/// A refused record type, and the label for which a record is outside it; without one that is a
/// label that no type names.
#[derive(Clone, Copy)]
pub struct Chosen<'t> {
    /// The type.
    pub refused: &'t Fields,
    /// The label, if it is one that a type names.
    pub reason: Option<&'t Name>,
}
