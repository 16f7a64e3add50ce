//! What is left to do while a value is asked.

use crate::node_sets::SetId;
use crate::row::RowId;
use cd_cells::{Part, ValueId};

/// What is done with the next answer, by the part of a value that gives it.
#[derive(Drop)]
pub(crate) enum Task<'v> {
    /// The first part of a pair: its second part is asked, for the pair at this set.
    OfSecond(ValueId, SetId),
    /// The second part of pairs at this set, whose first parts are in these nodes. The pairs are
    /// so many in a row, each the second part of the one before.
    OfPairs(SetId, SetId, u64),
    /// The tag: attributes and a content are asked, for the XML value at this set.
    OfAttributes(ValueId, ValueId, SetId),
    /// The attributes: a content is asked, for the XML value at this set whose tag is in these
    /// nodes.
    OfContent(ValueId, SetId, SetId),
    /// The content of an XML value at this set, whose tag and attributes are in these nodes.
    OfXml(SetId, SetId, SetId),
    /// The field with this label of a record at this set, whose fields before it have answered
    /// so, and which has those fields after it.
    OfField(SetId, RowId, u32, &'v [Part]),
}

/// What is done next.
#[derive(Drop)]
pub(crate) enum Next<'v> {
    /// This is the answer.
    Answer(SetId),
    /// This value is asked at this set, and then the task is done.
    Ask(ValueId, SetId, Task<'v>),
}
