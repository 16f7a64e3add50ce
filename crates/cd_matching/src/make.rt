//! Patterns from their parts.
ghost use Rattle.std.specs.Prelude.{◌≡◌, map};
ghost use Rattle.cd_matching.specs.Pattern as pattern;
ghost use Rattle.cd_matching.specs.Pattern.{patterns_of, regulars_of};
ghost use Rattle.cd_matching.specs.PlainPattern.{plain, plain_field, plain_regular, fields_of};

use crate::pattern::{Pat, PatField, PatFields, Pats, RegPat, RegPats};
use cd_sets::node_id::NodeId;
use cd_syntax::constant::Constant;
use cd_syntax::name::Name;
use cd_syntax::type_tree::Post;

impl Pat {
    /// The things of this type.
    pub fn of_type(id: NodeId) -> Pat
        ensures { plain result ≡ pattern.OfType id }
    {
        Pat::OfType(id)
    }

    /// Anything, which this variable captures.
    pub fn bind(name: Name) -> Pat
        ensures { plain result ≡ pattern.Bind name }
    {
        Pat::Bind(name)
    }

    /// Anything, where this variable is the constant.
    pub fn default(name: Name, constant: Constant) -> Pat
        ensures { plain result ≡ pattern.Default name constant }
    {
        Pat::Default(name, constant)
    }

    /// The pairs whose parts are taken.
    pub fn pair(first: Box<Pat>, second: Box<Pat>) -> Pat
        ensures { plain result ≡ pattern.Pair (plain first.value) (plain second.value) }
    {
        Pat::Pair(first, second)
    }

    /// The XML elements whose tag, attributes and content are taken.
    pub fn xml(tag: Box<Pat>, attributes: Box<Pat>, content: Box<Pat>) -> Pat
        ensures { plain result
            ≡ pattern.Xml (plain tag.value) (plain attributes.value) (plain content.value) }
    {
        Pat::Xml(tag, attributes, content)
    }

    /// The records with these fields, and with true also those that have other fields beside them.
    pub fn record(fields: Vec<PatField>, more: bool) -> Pat
        ensures { plain result ≡ pattern.Record (fields_of (map plain_field fields.items)) more }
    {
        Pat::Record(PatFields { items: fields }, more)
    }

    /// What all of these take.
    pub fn both(all: Vec<Pat>) -> Pat
        ensures { plain result ≡ pattern.Both (patterns_of (map plain all.items)) }
    {
        Pat::Both(Pats { items: all })
    }

    /// What one of these takes, of which the first counts.
    pub fn first(all: Vec<Pat>) -> Pat
        ensures { plain result ≡ pattern.First (patterns_of (map plain all.items)) }
    {
        Pat::First(Pats { items: all })
    }

    /// The sequences that this expression takes whole.
    pub fn sequence(items: Box<RegPat>) -> Pat
        ensures { plain result ≡ pattern.Sequence (plain_regular items.value) }
    {
        Pat::Sequence(items)
    }
}

impl PatField {
    /// A field that is present and is taken.
    pub fn present(label: Name, is: Pat) -> PatField
        ensures { plain_field result ≡ pattern.Present label (plain is) }
    {
        PatField::Present(label, is)
    }

    /// A field that is absent or of this type.
    pub fn optional(label: Name, id: NodeId) -> PatField
        ensures { plain_field result ≡ pattern.Optional label id }
    {
        PatField::Optional(label, id)
    }
}

impl RegPat {
    /// No item.
    pub fn nothing() -> RegPat
        ensures { plain_regular result ≡ pattern.Nothing }
    {
        RegPat::Nothing
    }

    /// One item.
    pub fn item(is: Box<Pat>) -> RegPat
        ensures { plain_regular result ≡ pattern.Item (plain is.value) }
    {
        RegPat::Item(is)
    }

    /// One after the other.
    pub fn seq(all: Vec<RegPat>) -> RegPat
        ensures { plain_regular result ≡ pattern.Seq (regulars_of (map plain_regular all.items)) }
    {
        RegPat::Seq(RegPats { items: all })
    }

    /// One of these.
    pub fn alt(all: Vec<RegPat>) -> RegPat
        ensures { plain_regular result ≡ pattern.Alt (regulars_of (map plain_regular all.items)) }
    {
        RegPat::Alt(RegPats { items: all })
    }

    /// As often as the postfix says.
    pub fn repeat(is: Box<RegPat>, post: Post) -> RegPat
        ensures { plain_regular result ≡ pattern.Repeat (plain_regular is.value) post }
    {
        RegPat::Repeat(is, post)
    }

    /// Items that this variable gathers.
    pub fn capture(name: Name, is: Box<RegPat>) -> RegPat
        ensures { plain_regular result ≡ pattern.Capture name (plain_regular is.value) }
    {
        RegPat::Capture(name, is)
    }
}
