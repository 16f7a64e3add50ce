//! A label that is open.

/// A label that is open, and where it was open last before.
#[derive(Clone, Copy)]
pub(crate) struct OpenLabel {
    /// Its number.
    pub(crate) label: u32,
    /// The number of open labels up to and with the last one before it that is the same, 0 if there
    /// is none.
    pub(crate) former: usize,
}
