//! What takes values by kernels.
ghost use Rattle.std.specs.Prelude.{◌≡◌, ◌<◌, length, IfOk, OnOk};
ghost use Rattle.cd_model.specs.AllOf.{AllOf};
ghost use Rattle.cd_matching.specs.Kernel.{IsSound};
ghost use Rattle.cd_matching.specs.PlainKernel.{plain_kernel};
ghost use Rattle.cd_graph.specs.Nodes.{nodes};
ghost use Rattle.cd_cells.specs.Cells.{thing_at};
ghost use Rattle.cd_cells.specs.Table.{table, names, Grows};
ghost use Rattle.cd_asking.specs.Known.{KnowsOf};
ghost use Rattle.cd_taking.specs.Inner.Coded.{Pushes, Catches, Cuts};
ghost use Rattle.cd_taking.specs.Inner.Running.{IsClear, Pops};
ghost use Rattle.cd_taking.specs.Taken.{TakenAs, listed, captured, if_taken};

use crate::capture::Capture;
use crate::failures::Failures;
use crate::frame::{Doing, Frame, Next};
use crate::frames::Frames;
use crate::running::step;
use crate::type_tests::Tests;
use cd_cells::{ValueId, Values};
use cd_matching::kernel::Kernel;
use std::alloc::{AllocError, Global};

/// What takes values by kernels. It keeps the memory that it used, and what the last call captured.
#[derive(Drop)]
pub struct Taker {
    /// What is left to do.
    pub(crate) frames: Frames,
    /// What was captured.
    pub(crate) captures: Vec<Capture>,
    /// Pairs that nodes of the kernel do not take.
    pub(crate) failures: Failures,
}

impl Taker {
    /// Nothing was captured.
    pub fn new(alloc: Global) -> Taker {
        Taker {
            frames: Frames::new(alloc),
            captures: Vec::new(alloc),
            failures: Failures::new(alloc),
        }
    }

    // Nothing is left to do, nothing is captured, and no failure is known.
    fn clear(&mut self)
        ensures { IsClear self.new }
    {
        self.frames.clear();
        self.captures.clear();
        self.failures.clear();
    }

    // Takes the frame on the top away.
    pub(crate) fn pop(&mut self) -> Option<Frame>
        ensures { Pops result self.old self.new }
    {
        self.frames.pop()
    }

    // Puts a frame on the top.
    pub(crate) fn push(&mut self, frame: Frame) -> Result<(), AllocError>
        ensures { OnOk result (Pushes frame self.old self.new) }
    {
        self.frames.push(frame)
    }

    // Puts a capture after the others.
    pub(crate) fn capture(&mut self, variable: usize, value: ValueId) -> Result<(), AllocError>
        ensures { OnOk result (Catches (record { variable = variable; value = value })
            self.old self.new) }
    {
        self.captures.push(Capture { variable, value })?;
        Ok(())
    }

    // Keeps the first captures.
    pub(crate) fn cut(&mut self, count: usize)
        ensures { Cuts count self.old self.new }
    {
        self.captures.truncate(count);
    }

    /// What the last value that was taken gave the variables, where the first capture of a variable
    /// counts.
    pub fn captures(&self) -> &[Capture]
        ensures { result.now ≡ listed self.now }
    {
        self.captures.as_slice()
    }

    /// Whether the root of a kernel takes a value. The captures are listed then.
    ///
    /// # Errors
    ///
    /// Want of memory.
    pub fn take(
        &mut self,
        kernel: &Kernel,
        tests: &mut Tests,
        values: &mut Values,
        id: ValueId,
    ) -> Result<bool, AllocError>
        requires value { id.0 < length (table values.old) }
        requires kernel { IsSound (λ type. type.0 < length (nodes tests.old.graph))
            (plain_kernel kernel.now) }
        requires knows { KnowsOf (nodes tests.old.graph) (names values.old) tests.old.asker }
        ensures taken { let v = thing_at (table values.old) id.0 in
            let captures = captured (table values.new) (listed self.new) in
            IfOk result (λ answer. TakenAs (nodes tests.old.graph) tests.old.maps
            (plain_kernel kernel.now) v (if_taken answer captures)) }
        ensures within { IfOk result (λ answer.
            AllOf (λ capture. capture.value.0 < length (table values.new)) (listed self.new)) }
        ensures graph { tests.new.graph ≡ tests.old.graph }
        ensures maps { tests.new.maps ≡ tests.old.maps }
        ensures knows { KnowsOf (nodes tests.new.graph) (names values.new) tests.new.asker }
        ensures grows { Grows values.old values.new }
    {
        self.clear();
        let mut next = Next::Look(id, kernel.root);
        loop {
            match step(self, kernel, tests, values, next)? {
                Doing::Goes(then) => next = then,
                Doing::Ends(answer) => return Ok(answer),
            }
        }
    }
}
