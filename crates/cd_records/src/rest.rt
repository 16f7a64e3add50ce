use cd_needs::row::Row;
use cd_sets::question::Question;

/// Records of a row without a label: they have values of the questions of `left` at other labels
/// of no cell.
#[derive(Drop)]
pub(crate) struct Rest<'r> {
    pub(crate) row: &'r Row,
    pub(crate) left: Vec<&'r Question>,
}
