//! Variables where they stand.
use cd_syntax::name::Name;

/// A variable where it stands.
#[derive(Clone, Copy)]
pub struct Occurrence<'t> {
    /// Its name.
    pub name: &'t Name,
    /// The place.
    pub at: usize,
}
