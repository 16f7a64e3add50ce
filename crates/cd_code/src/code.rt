//! The code of a program, as evaluation asks it.
ghost use Rattle.std.specs.Prelude.{◌≡◌, ◌<◌, length, option_map, IfOk, OnOk};
ghost use Rattle.std.specs.Str.{chars};
ghost use Rattle.cd_syntax.specs.PlainTree.{plain};
ghost use Rattle.cd_program.specs.PlainExpr.{plain_function};
ghost use Rattle.cd_cells.specs.Cells.{thing_at};
ghost use Rattle.cd_cells.specs.Table.{table, names, Grows};
ghost use Rattle.cd_evaluation.specs.ProgramCode.{code_of};
ghost use Rattle.cd_evaluation.specs.ProgramFunctions.{function_at, declared_at};
ghost use Rattle.cd_resolved.specs.Parts.{IsPatternOf};
ghost use Rattle.cd_code.specs.Compiled.{program_of, resolved_of, captured_of, if_taken, env_of};
ghost use Rattle.cd_code.specs.Compiled.{ArePartsOf, IsReady};

use crate::binding::Binding;
use crate::take::take;
use cd_cells::{Part, ValueId, Values};
use cd_program::expr::FunctionTree;
use cd_resolved::Resolved;
use cd_syntax::type_tree::Tree;
use cd_taking::{Taker, Tests};
use std::alloc::AllocError;

/// The code of a program: what evaluation asks of it.
#[derive(Drop)]
pub struct Code<'p> {
    /// The program, with the kernels of its patterns.
    pub(crate) program: Resolved<'p>,
    /// The names that each pattern binds, by the number of the pattern.
    pub(crate) bindings: Vec<Vec<Binding>>,
    /// What tests whether values are in types.
    pub(crate) tests: Tests,
    /// What takes values by kernels.
    pub(crate) taker: Taker,
    /// What the last pattern that took a value has captured.
    pub(crate) captured: Vec<Part>,
}

impl<'p> Code<'p> {
    /// The program that it is of.
    pub fn program(&self) -> &Resolved<'p>
        ensures { result.now ≡ resolved_of self.now }
    {
        &self.program
    }

    /// The function whose word `fun` stands at a place.
    pub fn function(&self, at: usize) -> Option<&'p FunctionTree>
        ensures { option_map (λ f. plain_function f.now) result
            ≡ function_at (program_of self.now) at }
    {
        self.program.function(at)
    }

    /// The place of the function that is declared by a name.
    pub fn declared(&self, name: &str) -> Option<usize>
        ensures { result ≡ declared_at (program_of self.now) (chars name.now) }
    {
        self.program.declared(name)
    }

    /// Whether a pattern of the program takes a value. What it captures is kept until the next
    /// pattern is asked: the values of the names that it binds, in the order of the text.
    ///
    /// # Errors
    ///
    /// Want of memory.
    pub fn take(
        &mut self,
        values: &mut Values,
        pattern: &Tree,
        id: ValueId,
    ) -> Result<bool, AllocError>
        requires known { IsPatternOf (program_of self.old) (plain pattern.now) }
        requires value { id.0 < length (table values.old) }
        requires ready { IsReady (names values.old) self.old }
        ensures taken { IfOk result (λ takes.
            (code_of (program_of self.old)).take (plain pattern.now)
            (thing_at (table values.old) id.0)
            (if_taken takes (env_of values.new (captured_of self.new)))) }
        ensures parts { OnOk result (ArePartsOf values.new (captured_of self.new)) }
        ensures ready { IsReady (names values.new) self.new }
        ensures program { program_of self.new ≡ program_of self.old }
        ensures grows { Grows values.old values.new }
    {
        let number = self.program.pattern_number(pattern);
        let one = &self.program.kernels()[number];
        let bindings = &self.bindings.as_slice()[number];
        // The contract of this call says that each thing of the table is a value.
        values.knows();
        take(
            &one.kernel,
            bindings.as_slice(),
            &mut self.taker,
            &mut self.tests,
            values,
            id,
            &mut self.captured,
        )
    }

    /// What the last pattern that took a value has captured, the innermost name first.
    pub fn captured(&self) -> &[Part]
        ensures { result.now ≡ captured_of self.now }
    {
        self.captured.as_slice()
    }
}
