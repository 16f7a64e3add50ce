//! What is done with the answer of what was looked at.
ghost use Rattle.std.specs.Prelude.{◌≡◌, ◌<◌, IfOk, length};
ghost use Rattle.cd_cells.specs.Table.{table, Grows};
ghost use Rattle.cd_taking.specs.declared.frame.Frame.TheVariants.{First, Second, Tag, Attributes};
ghost use Rattle.cd_taking.specs.declared.frame.Next.TheVariants.{Yes, No};
ghost use Rattle.cd_taking.specs.Inner.Coded.{IsWithin, on_top};
ghost use Rattle.cd_taking.specs.Inner.Stepping.{Moves};

use crate::failures::Failure;
use crate::frame::{Frame, Next};
use crate::gather::gather;
use crate::node_parts::{pair_node, xml_node};
use crate::taker::Taker;
use crate::views::{pair_of, xml_of};
use cd_cells::{ValueId, Values};
use cd_matching::kernel::Kernel;
use std::alloc::AllocError;

/// What is done where what was looked at is taken. The frame stood on the top.
pub(crate) fn go_on(
    taker: &mut Taker,
    kernel: &Kernel,
    values: &mut Values,
    frame: Frame,
) -> Result<Next, AllocError>
    requires within { IsWithin (length (table values.old)) (on_top frame taker.old) }
    ensures step { IfOk result (Moves kernel.now (table values.old) (table values.new)
        (on_top frame taker.old) taker.new Yes) }
    ensures grows { Grows values.old values.new }
{
    match frame {
        Frame::Or(_, _, _) => Ok(Next::Yes),
        Frame::And(value, second) => Ok(Next::Look(value, second)),
        Frame::First(pair, node) => open_second(taker, kernel, values, pair, node),
        Frame::Second(pair, node, mark) => end_pair(taker, kernel, values, pair, node, mark),
        Frame::Tag(xml, node) => open_attributes(taker, kernel, values, xml, node),
        Frame::Attributes(xml, node) => open_content(taker, kernel, values, xml, node),
        Frame::Field(value, node, from) => Ok(Next::Fields(value, node, from)),
    }
}

// The second part of a pair is looked at.
fn open_second(
    taker: &mut Taker,
    kernel: &Kernel,
    values: &Values,
    pair: ValueId,
    node: usize,
) -> Result<Next, AllocError>
    requires { IsWithin (length (table values.now)) (on_top (First pair node) taker.old) }
    ensures { IfOk result (Moves kernel.now (table values.now) (table values.now)
        (on_top (First pair node) taker.old) taker.new Yes) }
{
    let Some(parts) = pair_node(kernel, node) else {
        return Ok(Next::No);
    };
    match pair_of(values, pair) {
        Some((_, second)) => {
            let mark = taker.captures.as_slice().len();
            taker.push(Frame::Second(pair, node, mark))?;
            Ok(Next::Look(second, parts.second))
        }
        None => Ok(Next::No),
    }
}

// Both parts of a pair are taken.
fn end_pair(
    taker: &mut Taker,
    kernel: &Kernel,
    values: &mut Values,
    pair: ValueId,
    node: usize,
    mark: usize,
) -> Result<Next, AllocError>
    requires { IsWithin (length (table values.old)) (on_top (Second pair node mark) taker.old) }
    ensures step { IfOk result (Moves kernel.now (table values.old) (table values.new)
        (on_top (Second pair node mark) taker.old) taker.new Yes) }
    ensures grows { Grows values.old values.new }
{
    gather(&mut taker.captures, kernel, values, pair, node, mark)?;
    Ok(Next::Yes)
}

// The attributes of an XML value are looked at.
fn open_attributes(
    taker: &mut Taker,
    kernel: &Kernel,
    values: &Values,
    xml: ValueId,
    node: usize,
) -> Result<Next, AllocError>
    requires { IsWithin (length (table values.now)) (on_top (Tag xml node) taker.old) }
    ensures { IfOk result (Moves kernel.now (table values.now) (table values.now)
        (on_top (Tag xml node) taker.old) taker.new Yes) }
{
    let Some(parts) = xml_node(kernel, node) else {
        return Ok(Next::No);
    };
    match xml_of(values, xml) {
        Some((_, attributes, _)) => {
            taker.push(Frame::Attributes(xml, node))?;
            Ok(Next::Look(attributes, parts.1))
        }
        None => Ok(Next::No),
    }
}

// The content of an XML value is looked at.
fn open_content(
    taker: &mut Taker,
    kernel: &Kernel,
    values: &Values,
    xml: ValueId,
    node: usize,
) -> Result<Next, AllocError>
    requires { IsWithin (length (table values.now)) (on_top (Attributes xml node) taker.old) }
    ensures { IfOk result (Moves kernel.now (table values.now) (table values.now)
        (on_top (Attributes xml node) taker.old) taker.new Yes) }
{
    let Some(parts) = xml_node(kernel, node) else {
        return Ok(Next::No);
    };
    match xml_of(values, xml) {
        Some((_, _, content)) => Ok(Next::Look(content, parts.2)),
        None => Ok(Next::No),
    }
}

/// What is done where what was looked at is not taken. The frame stood on the top.
pub(crate) fn fall_back(
    taker: &mut Taker,
    kernel: &Kernel,
    values: &Values,
    frame: Frame,
) -> Result<Next, AllocError>
    requires { IsWithin (length (table values.now)) (on_top frame taker.old) }
    ensures { IfOk result (Moves kernel.now (table values.now) (table values.now)
        (on_top frame taker.old) taker.new No) }
{
    match frame {
        Frame::Or(value, second, mark) => {
            taker.cut(mark);
            Ok(Next::Look(value, second))
        }
        Frame::Second(pair, node, mark) => fail_pair(taker, kernel, values, pair, node, mark),
        _ => Ok(Next::No),
    }
}

// The node is known not to take the pair.
fn fail_pair(
    taker: &mut Taker,
    kernel: &Kernel,
    values: &Values,
    pair: ValueId,
    node: usize,
    mark: usize,
) -> Result<Next, AllocError>
    requires { IsWithin (length (table values.now)) (on_top (Second pair node mark) taker.old) }
    ensures { IfOk result (Moves kernel.now (table values.now) (table values.now)
        (on_top (Second pair node mark) taker.old) taker.new No) }
{
    let failure = Failure { pair: pair.0, node };
    taker.failures.add(failure)?;
    Ok(Next::No)
}
