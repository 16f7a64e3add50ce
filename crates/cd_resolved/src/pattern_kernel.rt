//! A pattern of a program, with its kernel.

use cd_matching::kernel::Kernel;
use cd_syntax::type_tree::Tree;

/// A pattern, and a kernel that takes what the pattern takes.
#[derive(Drop)]
pub struct PatternKernel<'p> {
    /// The pattern.
    pub pattern: &'p Tree,
    /// Its kernel.
    pub kernel: Kernel,
}
