ghost use Rattle.std.specs.Prelude.{◌≡◌, map};
ghost use Rattle.cd_matching.specs.Pattern.{patterns_of, regulars_of};
ghost use Rattle.cd_matching.specs.PlainPattern.{plain, plain_all, plain_field, plain_fields};
ghost use Rattle.cd_matching.specs.PlainPattern.{plain_regular, plain_regulars, fields_of};

use cd_sets::node_id::NodeId;
use cd_syntax::constant::Constant;
use cd_syntax::name::Name;
use cd_syntax::type_tree::Post;

/// A pattern over the nodes of a graph.
#[cycle(pattern)]
#[derive(Drop)]
pub enum Pat {
    /// The things of a type.
    OfType(NodeId),
    /// Anything, which the variable captures.
    Bind(Name),
    /// Anything, where the variable is the constant.
    Default(Name, Constant),
    /// The pairs whose parts are taken.
    Pair(Box<Pat>, Box<Pat>),
    /// The XML elements whose tag, attributes and content are taken.
    Xml(Box<Pat>, Box<Pat>, Box<Pat>),
    /// The records with these fields, and with true also those that have other fields beside them.
    Record(PatFields, bool),
    /// What all of them take.
    Both(Pats),
    /// What one of them takes, of which the first counts.
    First(Pats),
    /// The sequences that an expression takes whole.
    Sequence(Box<RegPat>),
}

/// A list of patterns.
#[cycle(pattern)]
#[derive(Drop)]
pub struct Pats {
    pub items: Vec<Pat>,
}

/// A field of a record.
#[cycle(pattern)]
#[derive(Drop)]
pub enum PatField {
    /// One that is present and is taken.
    Present(Name, Pat),
    /// One that is absent or of a type.
    Optional(Name, NodeId),
}

/// A list of fields.
#[cycle(pattern)]
#[derive(Drop)]
pub struct PatFields {
    pub items: Vec<PatField>,
}

/// A regular expression over patterns.
#[cycle(pattern)]
#[derive(Drop)]
pub enum RegPat {
    /// No item.
    Nothing,
    /// One item.
    Item(Box<Pat>),
    /// One after the other.
    Seq(RegPats),
    /// One of them.
    Alt(RegPats),
    /// As often as the postfix says.
    Repeat(Box<RegPat>, Post),
    /// Items that a variable gathers.
    Capture(Name, Box<RegPat>),
}

/// A list of regular expressions.
#[cycle(pattern)]
#[derive(Drop)]
pub struct RegPats {
    pub items: Vec<RegPat>,
}

impl Pats {
    /// The list of these patterns.
    pub fn of(items: Vec<Pat>) -> Pats
        ensures { plain_all result ≡ patterns_of (map plain items.items) }
    {
        Pats { items }
    }

    /// Its patterns.
    pub fn items(&self) -> &[Pat]
        ensures { patterns_of (map plain result.now) ≡ plain_all self.now }
    {
        self.items.as_slice()
    }
}

impl PatFields {
    /// The list of these fields.
    pub fn of(items: Vec<PatField>) -> PatFields
        ensures { plain_fields result ≡ fields_of (map plain_field items.items) }
    {
        PatFields { items }
    }

    /// Its fields.
    pub fn items(&self) -> &[PatField]
        ensures { fields_of (map plain_field result.now) ≡ plain_fields self.now }
    {
        self.items.as_slice()
    }
}

impl RegPats {
    /// The list of these expressions.
    pub fn of(items: Vec<RegPat>) -> RegPats
        ensures { plain_regulars result ≡ regulars_of (map plain_regular items.items) }
    {
        RegPats { items }
    }

    /// Its expressions.
    pub fn items(&self) -> &[RegPat]
        ensures { regulars_of (map plain_regular result.now) ≡ plain_regulars self.now }
    {
        self.items.as_slice()
    }
}
