//! What is known of the constants of a pattern: numbers and characters are in their ranges. Each
//! function does nothing, and its clause says what is known.
ghost use Rattle.std.specs.Prelude.{map};
ghost use Rattle.cd_sets.specs.declared.node_id.NodeId.{NodeId};
ghost use Rattle.cd_matching.specs.Pattern.{patterns_of, regulars_of, Fields};
ghost use Rattle.cd_matching.specs.PlainPattern.{plain, plain_field, plain_regular, fields_of};
ghost use Rattle.cd_patterns.specs.Inner.Fitting.{Fits, ConstantsFit, ConstantsOfAllFit};
ghost use Rattle.cd_patterns.specs.Inner.Fitting.{ConstantsOfFieldsFit, ConstantsOfItemsFit};
ghost use Rattle.cd_patterns.specs.Inner.Fitting.{ConstantsOfPartsFit};

use cd_matching::pattern::{Pat, PatField, RegPat};
use cd_syntax::constant::Constant;

/// A constant that is no atom is an element.
fn constant_fits(constant: &Constant)
    ensures { Fits constant.now }
{
    match constant {
        Constant::Int(n) => {
            let _number = *n;
        }
        Constant::Char(c) => {
            let _character = *c;
        }
        Constant::Text(text) => {
            let _text = text.as_str();
        }
        Constant::Atom(_) | Constant::Nil => {}
    }
}

/// So is each one of a pattern.
#[cycle(constants_fit)]
pub(crate) fn constants_fit(pattern: &Pat)
    ensures { ConstantsFit (plain pattern.now) }
{
    match pattern {
        Pat::OfType(_) | Pat::Bind(_) => {}
        Pat::Default(_, constant) => constant_fits(constant),
        Pat::Pair(first, second) => {
            constants_fit(first);
            constants_fit(second);
        }
        Pat::Xml(tag, attributes, content) => {
            constants_fit(tag);
            constants_fit(attributes);
            constants_fit(content);
        }
        Pat::Record(fields, _) => of_fields_fit(fields.items.as_slice()),
        Pat::Both(all) | Pat::First(all) => of_all_fit(all.items.as_slice()),
        Pat::Sequence(is) => of_items_fit(is),
    }
}

#[cycle(constants_fit)]
fn of_all_fit(all: &[Pat])
    ensures { ConstantsOfAllFit (patterns_of (map plain all.now)) }
{
    for pattern in all {
        constants_fit(pattern);
    }
}

#[cycle(constants_fit)]
fn of_fields_fit(fields: &[PatField])
    ensures { ConstantsOfFieldsFit (fields_of (map plain_field fields.now)) }
{
    for field in fields {
        of_field_fit(field);
    }
}

#[cycle(constants_fit)]
fn of_field_fit(field: &PatField)
    ensures { (rest : Fields NodeId) → ConstantsOfFieldsFit rest
        → ConstantsOfFieldsFit (plain_field field.now rest) }
{
    match field {
        PatField::Present(_, pattern) => constants_fit(pattern),
        PatField::Optional(_, _) => {}
    }
}

#[cycle(constants_fit)]
fn of_items_fit(is: &RegPat)
    ensures { ConstantsOfItemsFit (plain_regular is.now) }
{
    match is {
        RegPat::Nothing => {}
        RegPat::Item(pattern) => constants_fit(pattern),
        RegPat::Seq(all) | RegPat::Alt(all) => of_parts_fit(all.items.as_slice()),
        RegPat::Repeat(is, _) | RegPat::Capture(_, is) => of_items_fit(is),
    }
}

#[cycle(constants_fit)]
fn of_parts_fit(all: &[RegPat])
    ensures { ConstantsOfPartsFit (regulars_of (map plain_regular all.now)) }
{
    for is in all {
        of_items_fit(is);
    }
}
