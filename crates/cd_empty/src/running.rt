//! Runs of a decider, from a question to the end.
ghost use Rattle.std.specs.Prelude.{◌≡◌, ◌<◌, ◌^◌, ◌++◌, [], ◌∷◌, length, map, take};
ghost use Rattle.std.specs.Prelude.{IfOk, OnOk, OnErr, MatchBool};
ghost use Rattle.cd_graph.specs.Nodes.{nodes};
ghost use Rattle.cd_rules.specs.Machine.{NotIn};
ghost use Rattle.cd_rules.specs.Right.{IsRight, HasFirst};
ghost use Rattle.cd_rules.specs.BasicSets.{HasNoBasic};
ghost use Rattle.cd_rules.specs.Family.{AsksNodes};
ghost use Rattle.cd_empty.specs.Inner.Doing.{IsUnknown};
ghost use Rattle.cd_empty.specs.Inner.PlainFrame.{settled, state_of};
ghost use Rattle.cd_empty.specs.Inner.Running.{IsRunning, Keeps, KeepsKnown, HasGone, HasStopped};
ghost use Rattle.cd_empty.specs.Inner.Running.{IsStepped, RunsOn, HasFound, IsOpened};
ghost use Rattle.cd_empty.specs.Kept.{IsSound, kept, witnesses};

use crate::boxes::Boxes;
use crate::decider::Decider;
use crate::doing::Doing;
use crate::frame::Frame;
use crate::went::Went;
use cd_elements::ElementId;
use cd_graph::Graph;
use cd_members::basic_element;
use cd_normal::conjuncts::Conjuncts;
use cd_sets::question::Question;
use std::alloc::AllocError;

impl Decider {
    ghost use Rattle.cd_verdicts.specs.declared.verdict.Verdict.TheVariants.{Inhabited};

    /// Assumes that a question has no element, and works at it, and at each other one that it leads
    /// to, until nothing is left to do.
    ///
    /// # Errors
    ///
    /// Want of memory. Verdicts that were found in the meantime stay.
    pub(crate) fn run(&mut self, graph: &Graph, question: &Question) -> Result<(), AllocError>
        requires sound { IsSound (nodes graph.now) self.old }
        requires start { self.old.list ≡ [] }
        requires unknown { IsUnknown self.old question.now }
        requires asks { AsksNodes (length (nodes graph.now)) question.now }
        ensures right { OnOk result
            (IsRight (nodes graph.now) (settled self.new) (state_of self.new [])) }
        ensures first { OnOk result (HasFirst question.now (state_of self.new [])) }
        ensures sound { IsSound (nodes graph.now) self.new }
        ensures keeps { Keeps self.old self.new }
    {
        let mut frames = Boxes::new(self.allocator());
        self.open(graph, &mut frames, question.copy()?)?;
        self.to_end(graph, &mut frames)
    }

    // Goes on until nothing is left to do.
    fn to_end<'g>(
        &mut self,
        graph: &'g Graph,
        frames: &mut Boxes<Frame<'g>>,
    ) -> Result<(), AllocError>
        requires { IsRunning (nodes graph.now) self.old frames.old }
        ensures ran { OnOk result
            (RunsOn (nodes graph.now) self.old self.new frames.old frames.new) }
        ensures end { OnOk result (frames.new ≡ []) }
        ensures sound { IsSound (nodes graph.now) self.new }
        ensures keeps { Keeps self.old self.new }
    {
        'elements: while self.to_element(graph, frames)? {}
        Ok(())
    }

    // Goes on until an element of some question is found, and says whether one is. If none is,
    // nothing is left to do.
    fn to_element<'g>(
        &mut self,
        graph: &'g Graph,
        frames: &mut Boxes<Frame<'g>>,
    ) -> Result<bool, AllocError>
        requires { IsRunning (nodes graph.now) self.old frames.old }
        ensures ran { OnOk result
            (RunsOn (nodes graph.now) self.old self.new frames.old frames.new) }
        ensures found { IfOk result (λ found. MatchBool found
            (length (witnesses self.old) < length (witnesses self.new)) (frames.new ≡ [])) }
        ensures few { length (witnesses self.old) < 2 ^ 64 }
        ensures sound { IsSound (nodes graph.now) self.new }
        ensures keeps { Keeps self.old self.new }
    {
        // The contract of this call says that there are fewer than 2^64 verdicts.
        let _count = self.verdicts.len();
        'questions: loop {
            match self.to_question(graph, frames)? {
                Went::Found => return Ok(true),
                Went::Done => return Ok(false),
                _ => {}
            }
        }
    }

    // Goes on until a question is opened, an element is found, or nothing is left to do.
    fn to_question<'g>(
        &mut self,
        graph: &'g Graph,
        frames: &mut Boxes<Frame<'g>>,
    ) -> Result<Went, AllocError>
        requires { IsRunning (nodes graph.now) self.old frames.old }
        ensures ran { OnOk result
            (RunsOn (nodes graph.now) self.old self.new frames.old frames.new) }
        ensures stopped { IfOk result (HasStopped self.old self.new frames.old frames.new) }
        ensures few { length self.old.list < 2 ^ 64 }
        ensures sound { IsSound (nodes graph.now) self.new }
        ensures keeps { Keeps self.old self.new }
    {
        // The contract of this call says that there are fewer than 2^64 questions in the list.
        let _count = self.list.len();
        'work: loop {
            match self.step(graph, frames)? {
                Went::Worked => {}
                went => return Ok(went),
            }
        }
    }

    // Does one thing for the question of the last frame.
    fn step<'g>(
        &mut self,
        graph: &'g Graph,
        frames: &mut Boxes<Frame<'g>>,
    ) -> Result<Went, AllocError>
        requires { IsRunning (nodes graph.now) self.old frames.old }
        ensures ran { OnOk result
            (RunsOn (nodes graph.now) self.old self.new frames.old frames.new) }
        ensures gone { IfOk result (HasGone self.old self.new frames.old frames.new) }
        ensures sound { IsSound (nodes graph.now) self.new }
        ensures keeps { Keeps self.old self.new }
    {
        let Some(mut frame) = frames.pop() else {
            return Ok(Went::Done);
        };
        match self.work_at(graph, &mut frame)? {
            Doing::Worked => {
                frames.push(frame)?;
                Ok(Went::Worked)
            }
            Doing::Nothing => Ok(Went::Worked),
            Doing::Wants(question) => {
                frames.push(frame)?;
                Ok(self.open(graph, frames, question)?)
            }
            Doing::Found(id) => {
                self.find(frame, id)?;
                Ok(Went::Found)
            }
        }
    }

    // Keeps an element of the question of the last frame. What was assumed since that frame was
    // opened is assumed no more.
    fn find(&mut self, frame: Box<Frame<'_>>, id: ElementId) -> Result<(), AllocError>
        requires { NotIn (map (λ one. one.0) (kept self.old)) frame.value.question }
        ensures kept { OnOk result
            (kept self.new ≡ kept self.old ++ (frame.entry.value.question, Inhabited id) ∷ []) }
        ensures list { OnOk result (self.new.list ≡ take frame.entry.value.place self.old.list) }
        ensures unchanged { OnErr result (self.new ≡ self.old) }
        ensures same { self.new ≡ record self.old {
          verdicts = self.new.verdicts;
          list = self.new.list;
        } }
    {
        let Frame {
            place,
            question,
            ..
        } = Box::into_inner(frame);
        self.verdicts.add_element(question, id)?;
        self.list.truncate(place);
        Ok(())
    }

    // Keeps an element of a question of which nothing is known, if it has one that is made of no
    // others. Else the question is assumed to have none, and gets a frame.
    fn open<'g>(
        &mut self,
        graph: &'g Graph,
        frames: &mut Boxes<Frame<'g>>,
        question: Question,
    ) -> Result<Went, AllocError>
        requires running { IsRunning (nodes graph.now) self.old frames.old }
        requires unknown { IsUnknown self.old question }
        requires asks { AsksNodes (length (nodes graph.now)) question }
        ensures stepped { OnOk result
            (IsStepped (nodes graph.now) self.old self.new frames.old frames.new) }
        ensures opened { IfOk result (IsOpened (nodes graph.now) self.old self.new question) }
        ensures sound { IsSound (nodes graph.now) self.new }
        ensures keeps { Keeps self.old self.new }
    {
        if self.know(graph, &question)? {
            return Ok(Went::Found);
        }
        self.assume(graph, frames, question)?;
        Ok(Went::Opened)
    }

    // Keeps an integer, a character or an atom that is in a question of which nothing is known, and
    // says whether there is one.
    fn know(&mut self, graph: &Graph, question: &Question) -> Result<bool, AllocError>
        requires sound { IsSound (nodes graph.now) self.old }
        requires unknown { IsUnknown self.old question.now }
        requires asks { AsksNodes (length (nodes graph.now)) question.now }
        ensures known { IfOk result (λ known. MatchBool known
            (HasFound (nodes graph.now) self.old self.new question.now)
            (KeepsKnown self.old self.new × HasNoBasic (nodes graph.now) question.now)) }
        ensures sound { IsSound (nodes graph.now) self.new }
        ensures keeps { Keeps self.old self.new }
    {
        let alloc = self.allocator();
        match basic_element(alloc, graph, &mut self.elements, question)? {
            Some(id) => {
                self.verdicts.add_element(question.copy()?, id)?;
                Ok(true)
            }
            None => Ok(false),
        }
    }

    // Assumes that a question of which nothing is known has no element, and gives it a frame.
    fn assume<'g>(
        &mut self,
        graph: &'g Graph,
        frames: &mut Boxes<Frame<'g>>,
        question: Question,
    ) -> Result<(), AllocError>
        requires running { IsRunning (nodes graph.now) self.old frames.old }
        requires unknown { IsUnknown self.old question }
        requires asks { AsksNodes (length (nodes graph.now)) question }
        requires basic { HasNoBasic (nodes graph.now) question }
        ensures stepped { OnOk result
            (IsStepped (nodes graph.now) self.old self.new frames.old frames.new) }
        ensures list { OnOk result (self.new.list ≡ self.old.list ++ question ∷ []) }
        ensures same { self.new ≡ record self.old { list = self.new.list } }
    {
        let place = self.list.len();
        let conjuncts = Conjuncts::of(self.allocator(), graph, &question)?;
        self.list.number(question.copy()?)?;
        let frame = Frame::new(self.allocator(), place, question, conjuncts);
        frames.push(Box::new(self.allocator(), frame)?)?;
        Ok(())
    }
}
