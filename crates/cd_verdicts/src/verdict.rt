use cd_elements::ElementId;

/// Whether a question has an element.
#[derive(Clone, Copy, PartialEq, Eq)]
pub enum Verdict {
    /// It has none.
    Empty,
    /// It has this one.
    Inhabited(ElementId),
}
