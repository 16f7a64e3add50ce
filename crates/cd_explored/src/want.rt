/// What a node is to hold.
#[derive(Clone, Copy, PartialEq, Eq, Hash)]
pub enum Want {
    /// What comes to the place with this number.
    Comes(usize),
    /// What a variable captures at a place.
    Captures(usize, usize),
    /// The text of the constant of a node of the kernel, from the character with this number on.
    Text(usize, usize),
    /// A character.
    Character(char),
}
