//! A program that is resolved.
ghost use Rattle.std.specs.Prelude.{◌≡◌, Some, option_map};
ghost use Rattle.std.specs.List.{slice_get};
ghost use Rattle.std.specs.Str.{chars};
ghost use Rattle.cd_syntax.specs.PlainTree.{plain};
ghost use Rattle.cd_program.specs.PlainExpr.{plain_function};
ghost use Rattle.cd_program.specs.PlainProgram.{plain_program};
ghost use Rattle.cd_graph.specs.Nodes.{nodes};
ghost use Rattle.cd_evaluation.specs.ProgramFunctions.{all_functions, function_at, declared_at};
ghost use Rattle.cd_placed.specs.Patterns.{all_patterns};
ghost use Rattle.cd_resolved.specs.Parts.{IsFunctionOf, IsPatternOf};
ghost use Rattle.cd_resolved.specs.Resolved.{program_of, kernels_of, function_nodes};
ghost use Rattle.cd_resolved.specs.Resolved.{site_trees, asked_graph, program_graph, IsResolved};

use crate::function_nodes::FunctionNodes;
use crate::parts::Functions;
use crate::pattern_kernel::PatternKernel;
use crate::site_tree::SiteTree;
use crate::starts::{place, start};
use cd_cells::Slots;
use cd_graph::Graph;
use cd_program::expr::FunctionTree;
use cd_program::program::Program;
use cd_syntax::type_tree::Tree;

/// A program, with the nodes of its written types.
#[derive(Drop)]
pub struct Resolved<'p> {
    /// The program and its functions.
    pub(crate) functions: Functions<'p>,
    /// Its patterns with their kernels.
    pub(crate) kernels: Vec<PatternKernel<'p>>,
    /// The numbers of these by the places where the patterns begin.
    pub(crate) starts: Slots<usize>,
    /// All functions with the nodes of their interfaces.
    pub(crate) interfaces: Vec<FunctionNodes<'p>>,
    /// Its sites, a form before its parts.
    pub(crate) sites: Vec<SiteTree<'p>>,
    /// The nodes of the declared names and of the types in patterns.
    pub(crate) asked: Graph,
    /// These, and after them the nodes of interfaces.
    pub(crate) graph: Graph,
}

impl<'p> Resolved<'p> {
    /// The program.
    pub fn program(&self) -> &'p Program
        ensures { plain_program result.now ≡ program_of self.now }
    {
        self.functions.program()
    }

    /// The function whose word `fun` stands at a place.
    pub fn function(&self, at: usize) -> Option<&'p FunctionTree>
        ensures { option_map (λ f. plain_function f.now) result
            ≡ function_at (program_of self.now) at }
    {
        self.functions.function(at)
    }

    /// The place of the function that is declared by a name.
    pub fn declared(&self, name: &str) -> Option<usize>
        ensures { result ≡ declared_at (program_of self.now) (chars name.now) }
    {
        self.functions.declared(name)
    }

    /// The number of a pattern of the program, among all of them.
    pub fn pattern_number(&self, pattern: &Tree) -> usize
        requires resolved { IsResolved self.now }
        requires pattern { IsPatternOf (program_of self.now) (plain pattern.now) }
        ensures { slice_get (all_patterns (program_of self.now)) result
            ≡ Some (plain pattern.now) }
    {
        match self.starts.get(start(pattern)) {
            Some(number) => number,
            None => unreachable!(),
        }
    }

    /// The number of a function of the program, among all of them.
    pub fn function_number(&self, function: &FunctionTree) -> usize
        requires resolved { IsResolved self.now }
        requires function { IsFunctionOf (program_of self.now) (plain_function function.now) }
        ensures { slice_get (all_functions (program_of self.now)) result
            ≡ Some (plain_function function.now) }
    {
        match self.functions.number(place(function)) {
            Some(number) => number,
            None => unreachable!(),
        }
    }

    /// Its patterns, in the order of their numbers, with their kernels.
    pub fn kernels(&self) -> &[PatternKernel<'p>]
        ensures { result.now ≡ kernels_of self.now }
    {
        self.kernels.as_slice()
    }

    /// Its functions, in the order of their numbers, with the nodes of their interfaces.
    pub fn interfaces(&self) -> &[FunctionNodes<'p>]
        ensures { result.now ≡ function_nodes self.now }
    {
        self.interfaces.as_slice()
    }

    /// Its sites, in the order of the text, a form before its parts.
    pub fn sites(&self) -> &[SiteTree<'p>]
        ensures { result.now ≡ site_trees self.now }
    {
        self.sites.as_slice()
    }

    /// The nodes of the declared names and of the types in patterns, which values are asked for.
    pub fn asked(&self) -> &Graph
        ensures { nodes result.now ≡ asked_graph self.now }
    {
        &self.asked
    }

    /// The nodes of all written types.
    pub fn graph(&self) -> &Graph
        ensures { nodes result.now ≡ program_graph self.now }
    {
        &self.graph
    }
}
