//! Faults as they are found.
use crate::fault::NameFault;
use cd_syntax::name::Name;

/// A fault of a name, and where it is.
#[derive(Clone, Copy)]
pub struct Reported<'t> {
    /// What is wrong.
    pub fault: NameFault,
    /// The name that it is reported of, if it is reported of one.
    pub name: Option<&'t Name>,
    /// Its place.
    pub at: usize,
}
