/// What is read of tokens.
#[derive(Drop)]
pub(crate) enum Reading<P> {
    /// What all of them write.
    Whole(P),
    /// The number of the first token that cannot come, or how many there are.
    Wrong(usize),
    /// That of a token whose level has no room.
    TooDeep(usize),
}
