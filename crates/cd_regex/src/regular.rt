ghost use Rattle.std.specs.Prelude.{◌≡◌, map};
ghost use Rattle.cd_regex.specs.PlainRegular.{plain, plain_list};

use cd_sets::node_id::NodeId;

/// A regular expression over nodes.
#[cycle(regular)]
#[derive(Drop)]
pub enum Reg {
    /// No item.
    Nothing,
    /// One item, in this node.
    Item(NodeId),
    /// These in turn.
    Seq(Regs),
    /// One of these.
    Alt(Regs),
    /// This one any number of times.
    Star(Box<Reg>),
    /// This one once or more.
    Plus(Box<Reg>),
    /// This one at most once.
    Opt(Box<Reg>),
}

/// A list of regular expressions.
#[cycle(regular)]
#[derive(Drop)]
pub struct Regs {
    pub(crate) items: Vec<Reg>,
}

impl Regs {
    /// The list of these expressions.
    pub fn of(items: Vec<Reg>) -> Regs
        ensures { plain_list result ≡ map plain items.items }
    {
        Regs { items }
    }
}
