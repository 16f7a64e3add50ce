/// A row: a spelling of 1 to 16 bytes, none of them 0, with zeros after it, and its value.
#[derive(Clone, Copy)]
pub struct TableRow<V: Copy> {
    /// The spelling, and zeros after it.
    pub spelling: [u8; 16],
    /// What it stands for.
    pub value: V,
}
