use cd_cells::ValueId;

/// A form that is open. Its items and its labels are those of the reader from some number on.
#[derive(Clone, Copy)]
pub(crate) enum OpenForm {
    /// A tuple, with its items.
    Tuple(usize),
    /// A sequence, with its items.
    Sequence(usize),
    /// A record, with its labels and its items.
    Record(usize, usize),
    /// A tag, with its atom, its labels and its items.
    Tag(ValueId, usize, usize),
    /// A content, with the tag and the attributes.
    Content(ValueId, ValueId),
}

/// What may come next.
#[derive(Clone, Copy)]
pub(crate) enum Expecting {
    /// A value.
    Value,
    /// An item of a sequence, or its end.
    Item,
    /// What stands after a part of a tuple.
    AfterPart,
    /// A label of a record, or its end.
    Field,
    /// What stands after a field.
    AfterField,
    /// The name of a tag.
    Tag,
    /// A label of a tag, or its end.
    Attribute,
    /// What stands after an attribute.
    AfterAttribute,
    /// The `=` after a label.
    Equal,
    /// Nothing: the value was read.
    Nothing(ValueId),
}
