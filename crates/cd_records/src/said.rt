use cd_sets::question::Question;
use cd_syntax::name::Name;

/// What may stand at a label: nothing, if it is optional, or what is in one of the questions.
#[derive(Drop)]
pub(crate) struct Said<'r> {
    pub(crate) label: &'r Name,
    pub(crate) optional: bool,
    pub(crate) questions: Vec<&'r Question>,
}
