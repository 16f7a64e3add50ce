//! Laws of the words of `specs/`. Each is the contract of a function that does nothing.
ghost use Rattle.cd_empty.specs.Growth.{Grows};
ghost use Rattle.cd_empty.specs.Seen.{Seen};

/// A world grows to itself, and what grows to another that grows to a third grows to the third.
pub fn growth_is_an_order()
    ensures itself { (world : Seen) → Grows world world }
    ensures further { (first second third : Seen) → Grows first second → Grows second third
        → Grows first third }
{}
