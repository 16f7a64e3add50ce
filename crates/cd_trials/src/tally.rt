//! How many rows were put, and how many of them differ.
use std::alloc::{AllocError, Global};

/// How many rows were put, and how many of them differ.
#[derive(Clone, Copy)]
pub struct Tally {
    /// How many rows were put.
    pub rows: u64,
    /// How many of them differ.
    pub differ: u64,
}

/// How many rows of a file were put, and how those that differ do.
#[derive(Drop)]
pub(crate) struct FileTally {
    pub(crate) rows: u64,
    pub(crate) differences: Vec<String>,
}

impl FileTally {
    /// Of no rows.
    pub(crate) fn new(alloc: Global) -> FileTally {
        FileTally {
            rows: 0,
            differences: Vec::new(alloc),
        }
    }

    /// Counts a row, with how it differs, if it does.
    pub(crate) fn count(&mut self, difference: Option<String>) -> Result<(), AllocError> {
        self.rows = self.rows.saturating_add(1);
        if let Some(difference) = difference {
            self.differences.push(difference)?;
        }
        Ok(())
    }
}
