//! Regular expressions from their parts.
ghost use Rattle.std.specs.Prelude.{◌≡◌};
ghost use Rattle.cd_regex.specs.Regular as regular;
ghost use Rattle.cd_regex.specs.PlainRegular.{plain, plain_regulars};

use crate::regular::{Reg, Regs};
use cd_sets::node_id::NodeId;

impl Reg {
    /// No item.
    pub fn nothing() -> Reg
        ensures { plain result ≡ regular.Nothing }
    {
        Reg::Nothing
    }

    /// One item, in this node.
    pub fn item(id: NodeId) -> Reg
        ensures { plain result ≡ regular.Item id }
    {
        Reg::Item(id)
    }

    /// These in turn.
    pub fn seq(all: Regs) -> Reg
        ensures { plain result ≡ regular.Seq (plain_regulars all) }
    {
        Reg::Seq(all)
    }

    /// One of these.
    pub fn alt(all: Regs) -> Reg
        ensures { plain result ≡ regular.Alt (plain_regulars all) }
    {
        Reg::Alt(all)
    }

    /// This one any number of times.
    pub fn star(is: Box<Reg>) -> Reg
        ensures { plain result ≡ regular.Star (plain is.value) }
    {
        Reg::Star(is)
    }

    /// This one once or more.
    pub fn plus(is: Box<Reg>) -> Reg
        ensures { plain result ≡ regular.Plus (plain is.value) }
    {
        Reg::Plus(is)
    }

    /// This one at most once.
    pub fn opt(is: Box<Reg>) -> Reg
        ensures { plain result ≡ regular.Opt (plain is.value) }
    {
        Reg::Opt(is)
    }
}
