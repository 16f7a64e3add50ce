//! Programs that are resolved: each written type of a program has a node, each pattern a kernel
//! over nodes, and each function the nodes of its interface. All that reads a program's types goes
//! by these, so that no tree is resolved twice. The sites of a program, which match values against
//! patterns, are listed.
#![tactic(auto)]

pub mod copy;
mod declare;
mod found;
pub mod function_nodes;
mod interfaces;
mod kernels;
mod numbers;
pub mod parts;
mod pattern;
pub mod pattern_kernel;
pub mod resolved;
mod resolving;
pub mod site_tree;
mod starts;

pub use function_nodes::FunctionNodes;
pub use pattern_kernel::PatternKernel;
pub use resolved::Resolved;
pub use resolving::resolve_program;
pub use site_tree::SiteTree;
