use cd_sets::question::{Question, Questions};
use cd_syntax::name::Name;

/// What a row says of one label.
#[derive(Drop)]
pub struct FieldCell {
    /// Whether nothing may stand there.
    pub absent: bool,
    /// What a value there is in.
    pub value: Question,
}

/// A part of a record clause: a record is in it where at each label of `fields` there is nothing,
/// if that may be, or a value of the cell; where at each other label there is nothing or a value of
/// `every`; and where for each question of `some` a label that `fields` does not have holds a value
/// of it.
#[derive(Drop)]
pub struct Row {
    /// The labels that some type names, and what may stand there.
    pub fields: Vec<(Name, FieldCell)>,
    /// What a value at another label is in.
    pub every: Question,
    /// What some value at another label is in, for each of these.
    pub some: Questions,
}
