use cd_syntax::constant::Constant;

/// What is captured at a place. Places are known by their numbers.
#[derive(Clone, Copy)]
pub enum Step<'k> {
    /// By this variable what comes there.
    Takes(usize),
    /// By this variable a constant.
    Puts(usize, &'k Constant),
    /// What is captured at another place, but by this variable.
    Leads(Option<usize>, usize),
    /// By this variable an item that comes to a place, and then what it captures at another one.
    Gathers(usize, usize, usize),
}
