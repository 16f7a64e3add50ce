//! A search that puts each number in order after those that it leads to.
ghost use Rattle.std.specs.Prelude.{◌≡◌, ℕ, ◌+◌, ◌^◌, ◌<◌, [], ◌∷◌, map, length, reverse};
ghost use Rattle.std.specs.Prelude.{replicate, slice_set, true, false, Some, None, IfOk, IfSome};
ghost use Rattle.std.specs.List.{slice_get};
ghost use Rattle.cd_resolve.specs.Inner.Order.{AreRows, Ends, row};
ghost use Rattle.cd_resolve.specs.Inner.Search.{IsSeen, AreKept, IsSound, steps};

use std::alloc::{AllocError, Global};

/// A number that is open, and how many of its row were looked at.
#[derive(Clone, Copy)]
pub(crate) struct Frame {
    number: usize,
    looked: usize,
}

/// What is seen, the open numbers with the last opened at the end, and the numbers that are put in
/// order.
#[derive(Drop)]
pub(crate) struct Search {
    seen: Vec<bool>,
    frames: Vec<Frame>,
    order: Vec<usize>,
}

impl Search {
    /// A search among so many numbers, of which none is seen.
    pub(crate) fn new(alloc: Global, count: usize) -> Result<Search, AllocError>
        ensures seen { IfOk result (λ search. search.seen.items ≡ replicate count false) }
        ensures opened { IfOk result (λ search. search.frames.items ≡ []) }
        ensures order { IfOk result (λ search. search.order.items ≡ []) }
    {
        Ok(Search {
            seen: Vec::from_elem(alloc, false, count)?,
            frames: Vec::new(alloc),
            order: Vec::new(alloc),
        })
    }

    /// The numbers in order.
    pub(crate) fn into_order(self) -> Vec<usize>
        ensures { result ≡ self.order }
    {
        self.order
    }

    /// Puts a number and all that it leads to, as far as they are not put yet.
    pub(crate) fn visit(&mut self, links: &[Vec<usize>], number: usize) -> Result<(), AllocError>
        requires rows { AreRows (map (λ row. row.items) links.now) }
        requires ends { (number : ℕ) → number < length links.now
            → Ends (map (λ row. row.items) links.now) number }
        requires has { number < length links.now }
        requires none { self.old.frames.items ≡ [] }
        requires sound { IsSound (map (λ row. row.items) links.now) self.old.seen.items
            [] self.old.order.items }
        ensures none { IfOk result (λ _. self.new.frames.items ≡ []) }
        ensures sound { IfOk result
            (λ _. IsSound (map (λ row. row.items) links.now) self.new.seen.items
            [] self.new.order.items) }
        ensures seen { IfOk result (λ _. IsSeen self.new.seen.items number) }
        ensures kept { IfOk result (λ _. AreKept self.old.seen.items self.new.seen.items) }
    {
        self.begin(links, number)?;
        while let Some(frame) = self.frames.pop() {
            self.step(links, frame)?;
        }
        Ok(())
    }

    // Opens a number where none is open, unless it was seen.
    fn begin(&mut self, links: &[Vec<usize>], number: usize) -> Result<(), AllocError>
        requires has { number < length links.now }
        requires none { self.old.frames.items ≡ [] }
        requires sound { IsSound (map (λ row. row.items) links.now) self.old.seen.items
            [] self.old.order.items }
        ensures sound { IfOk result
            (λ _. IsSound (map (λ row. row.items) links.now) self.new.seen.items
            (reverse self.new.frames.items) self.new.order.items) }
        ensures seen { IfOk result (λ _. IsSeen self.new.seen.items number) }
        ensures kept { IfOk result (λ _. AreKept self.old.seen.items self.new.seen.items) }
    {
        if self.seen[number] {
            return Ok(());
        }
        self.add(number)
    }

    // Opens a number.
    fn add(&mut self, number: usize) -> Result<(), AllocError>
        requires { number < length self.old.seen.items }
        ensures seen { self.new.seen.items ≡ slice_set self.old.seen.items number true }
        ensures opened { IfOk result
            (λ _. reverse self.new.frames.items
            ≡ record { number = number; looked = 0 } ∷ reverse self.old.frames.items) }
        ensures order { self.new.order.items ≡ self.old.order.items }
    {
        self.seen[number] = true;
        self.keep(Frame { number, looked: 0 })
    }

    // Puts a frame on the others.
    fn keep(&mut self, frame: Frame) -> Result<(), AllocError>
        ensures seen { self.new.seen.items ≡ self.old.seen.items }
        ensures opened { IfOk result
            (λ _. reverse self.new.frames.items ≡ frame ∷ reverse self.old.frames.items) }
        ensures order { self.new.order.items ≡ self.old.order.items }
    {
        self.frames.push(frame)?;
        Ok(())
    }

    // Goes on with the frame that was opened last, which was taken off.
    fn step(&mut self, links: &[Vec<usize>], frame: Frame) -> Result<(), AllocError>
        requires rows { AreRows (map (λ row. row.items) links.now) }
        requires ends { (number : ℕ) → number < length links.now
            → Ends (map (λ row. row.items) links.now) number }
        requires sound { IsSound (map (λ row. row.items) links.now) self.old.seen.items
            (frame ∷ reverse self.old.frames.items) self.old.order.items }
        ensures sound { IfOk result
            (λ _. IsSound (map (λ row. row.items) links.now) self.new.seen.items
            (reverse self.new.frames.items) self.new.order.items) }
        ensures kept { IfOk result (λ _. AreKept self.old.seen.items self.new.seen.items) }
        ensures fewer { IfOk result
            (λ _. steps (map (λ row. row.items) links.now) self.new.seen.items
            (reverse self.new.frames.items)
            < steps (map (λ row. row.items) links.now) self.old.seen.items
            (frame ∷ reverse self.old.frames.items)) }
    {
        match next_of(links, frame) {
            Some(next) => self.look_at(links, frame, next),
            None => self.put(links, frame),
        }
    }

    // Puts the number of a frame, whose row was looked at to its end.
    fn put(&mut self, links: &[Vec<usize>], frame: Frame) -> Result<(), AllocError>
        requires ends { (number : ℕ) → number < length links.now
            → Ends (map (λ row. row.items) links.now) number }
        requires end { slice_get (row (map (λ row. row.items) links.now) frame.number) frame.looked
            ≡ None }
        requires sound { IsSound (map (λ row. row.items) links.now) self.old.seen.items
            (frame ∷ reverse self.old.frames.items) self.old.order.items }
        ensures sound { IfOk result
            (λ _. IsSound (map (λ row. row.items) links.now) self.new.seen.items
            (reverse self.new.frames.items) self.new.order.items) }
        ensures kept { IfOk result (λ _. AreKept self.old.seen.items self.new.seen.items) }
        ensures fewer { IfOk result
            (λ _. steps (map (λ row. row.items) links.now) self.new.seen.items
            (reverse self.new.frames.items)
            < steps (map (λ row. row.items) links.now) self.old.seen.items
            (frame ∷ reverse self.old.frames.items)) }
    {
        self.order.push(frame.number)?;
        Ok(())
    }

    // Looks at the next number of a frame's row: opens it if it is not seen, and else passes it,
    // since it is put.
    fn look_at(&mut self, links: &[Vec<usize>], frame: Frame, next: usize) -> Result<(), AllocError>
        requires rows { AreRows (map (λ row. row.items) links.now) }
        requires ends { (number : ℕ) → number < length links.now
            → Ends (map (λ row. row.items) links.now) number }
        requires at { slice_get (row (map (λ row. row.items) links.now) frame.number) frame.looked
            ≡ Some next }
        requires fits { frame.looked + 1 < 2 ^ 64 }
        requires sound { IsSound (map (λ row. row.items) links.now) self.old.seen.items
            (frame ∷ reverse self.old.frames.items) self.old.order.items }
        ensures sound { IfOk result
            (λ _. IsSound (map (λ row. row.items) links.now) self.new.seen.items
            (reverse self.new.frames.items) self.new.order.items) }
        ensures kept { IfOk result (λ _. AreKept self.old.seen.items self.new.seen.items) }
        ensures fewer { IfOk result
            (λ _. steps (map (λ row. row.items) links.now) self.new.seen.items
            (reverse self.new.frames.items)
            < steps (map (λ row. row.items) links.now) self.old.seen.items
            (frame ∷ reverse self.old.frames.items)) }
    {
        if self.seen[next] {
            return self.keep(Frame {
                number: frame.number,
                looked: frame.looked + 1,
            });
        }
        self.keep(frame)?;
        self.add(next)
    }
}

// The next number of a frame's row that is to be looked at.
fn next_of(links: &[Vec<usize>], frame: Frame) -> Option<usize>
    requires { frame.number < length links.now }
    ensures next { result ≡ slice_get
        (row (map (λ row. row.items) links.now) frame.number) frame.looked }
    ensures fits { IfSome result (λ _. frame.looked + 1 < 2 ^ 64) }
{
    links[frame.number].as_slice().get(frame.looked).copied()
}
