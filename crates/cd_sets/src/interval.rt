/// The integers from `low` to `high`, both among them; none where `low` is above `high`.
#[derive(Clone, Copy, PartialEq, Eq)]
pub struct Interval {
    pub low: i128,
    pub high: i128,
}
