//! What rules make of their parts.
ghost use Rattle.std.specs.Prelude.{◌≡◌, IfOk};
ghost use Rattle.cd_grammar.specs.Makes as makes;
ghost use Rattle.cd_parser.specs.PlainParts.{plain_part};

use crate::exprs::{apply, call, chain, constant_expr, next_expr, two_exprs, variable_expr};
use crate::functions::{
    declared_function, first_function, first_type, if_else, let_in, matching, named_function,
    next_branches, next_function, next_type, no_program, unnamed_function,
};
use crate::pairs::of_second;
use crate::part::Part;
use crate::parts::Parts;
use crate::paths::{
    attribute_step, before_attribute_step, before_child_step, before_field_step, child_step, path,
};
use crate::selects::{before_sources, selecting, source_where};
use crate::tree_made::{
    make_tree_of_five, make_tree_of_four, make_tree_of_one, make_tree_of_three, make_tree_of_two,
};
use crate::triples::{of_ends, of_middle};
use crate::values::{
    label_expr, next_expr_fields, next_items, one_item, record_expr, run_item, xml_expr,
    xml_expr_with,
};
use cd_grammar::make::{Five, Four, One, Six, Three, Two};
use cd_syntax::tokens::{Span, Token};
use cd_tree_actions::part::TreePart;
use std::alloc::{AllocError, Global};

impl<'t> Parts<'t> for Part<'t> {
    ghost plain = { plain_part };

    fn of_token(token: &'t Token) -> Part<'t> {
        Part::Tree(TreePart::Token(token))
    }

    fn junk() -> Part<'t> {
        Part::Junk
    }

    fn make_of_one(
        alloc: Global,
        make: One,
        here: Span,
        a: Part<'t>,
    ) -> Result<Part<'t>, AllocError> {
        match make {
            One::That => Ok(a),
            One::NoProgram => {
                drop(a);
                Ok(no_program(alloc))
            }
            One::FirstType => Ok(first_type(alloc, a)),
            One::FirstFunction => first_function(alloc, a),
            One::Chain => chain(alloc, here, a),
            One::Apply => apply(alloc, here, a),
            One::ConstantExpr => constant_expr(alloc, here, a),
            One::VariableExpr => variable_expr(alloc, here, a),
            One::LabelExpr => label_expr(alloc, here, a),
            One::AttributesExpr => record_expr(alloc, here, a),
            One::RunItem => run_item(alloc, a),
            One::OneItem => one_item(alloc, a),
            _ => make_tree_of_one(alloc, make, here, a),
        }
    }

    fn make_of_two(
        alloc: Global,
        make: Two,
        here: Span,
        a: Part<'t>,
        b: Part<'t>,
    ) -> Result<Part<'t>, AllocError> {
        match make {
            Two::First => {
                drop(b);
                Ok(a)
            }
            Two::Second
            | Two::Call(_)
            | Two::Splice
            | Two::FieldStep
            | Two::NoItems
            | Two::NoExprFields => {
                drop(a);
                of_second(alloc, make, here, b)
            }
            Two::NextType => next_type(a, b),
            Two::NextFunction => next_function(a, b),
            Two::NextBranches => next_branches(a, b),
            Two::Applied => two_exprs(alloc, a, b),
            Two::NextApplied => next_expr(a, b),
            Two::NextItems => next_items(a, b),
            Two::NextExprFields => next_expr_fields(a, b),
            Two::Path => path(alloc, here, a, b),
            Two::ChildStep => child_step(alloc, a, b),
            Two::AttributeStep => attribute_step(alloc, a, b),
            Two::HalfInterval
            | Two::AndOthers
            | Two::NextFields
            | Two::NoFields
            | Two::EmptySequence
            | Two::TwoRegulars
            | Two::NextRegular
            | Two::ItemRegular
            | Two::Repeated
            | Two::RepeatedItem
            | Two::NextNames
            | Two::File
            | Two::Nil => make_tree_of_two(alloc, make, here, a, b),
        }
    }

    fn make_of_three(
        alloc: Global,
        make: Three,
        here: Span,
        a: Part<'t>,
        b: Part<'t>,
        c: Part<'t>,
    ) -> Result<Part<'t>, AllocError> {
        match make {
            Three::UnnamedFunction => unnamed_function(alloc, here, a, b, c),
            Three::BeforeChildStep => before_child_step(alloc, a, b, c),
            Three::BeforeAttributeStep => before_attribute_step(alloc, a, b, c),
            Three::BeforeFieldStep => {
                drop(a);
                before_field_step(alloc, b, c)
            }
            Three::Between | Three::TupleExpr | Three::SequenceExpr | Three::RecordExpr => {
                drop(a);
                drop(c);
                of_middle(alloc, make, here, b)
            }
            Three::Signature
            | Three::SeparateSignatures
            | Three::Branch
            | Three::FirstOperand(_)
            | Three::NextOperand(_)
            | Three::FirstWithout
            | Three::NextWithout
            | Three::Source
            | Three::TwoExprs
            | Three::NextExpr
            | Three::ExprField
            | Three::SeparateExprFields => {
                drop(b);
                of_ends(alloc, make, here, a, c)
            }
            _ => make_tree_of_three(alloc, make, here, a, b, c),
        }
    }

    fn make_of_four(
        alloc: Global,
        make: Four,
        here: Span,
        a: Part<'t>,
        b: Part<'t>,
        c: Part<'t>,
        d: Part<'t>,
    ) -> Result<Part<'t>, AllocError> {
        match make {
            Four::Declaration | Four::Xml => make_tree_of_four(alloc, make, here, a, b, c, d),
            Four::Matching(form) => {
                drop(a);
                drop(c);
                matching(alloc, form, here, b, d)
            }
            Four::NamedFunction => named_function(alloc, here, a, b, c, d),
            Four::XmlExpr => {
                drop(a);
                xml_expr(alloc, here, b, c, d)
            }
        }
    }

    fn make_of_five(
        alloc: Global,
        make: Five,
        here: Span,
        parts: (Part<'t>, Part<'t>, Part<'t>, Part<'t>, Part<'t>),
    ) -> Result<Part<'t>, AllocError>
        ensures { IfOk result (λ made. plain_part made ≡ makes.made_of_five make here
            (plain_part parts.entry.0) (plain_part parts.entry.1) (plain_part parts.entry.2)
            (plain_part parts.entry.3) (plain_part parts.entry.4)) }
    {
        let (a, b, c, d, e) = parts;
        match make {
            Five::XmlWith | Five::Default => {
                make_tree_of_five(alloc, make, here, (a, b, c, d, e))
            }
            Five::DeclaredFunction => {
                drop(a);
                declared_function(alloc, b, c, d, e)
            }
            Five::XmlExprWith => {
                drop(a);
                drop(d);
                xml_expr_with(alloc, here, b, c, e)
            }
            Five::SourceWhere => {
                drop(b);
                drop(d);
                source_where(alloc, a, c, e)
            }
            Five::BeforeSources => {
                drop(b);
                drop(d);
                before_sources(a, c, e)
            }
        }
    }

    fn make_of_six(
        alloc: Global,
        make: Six,
        here: Span,
        parts: (Part<'t>, Part<'t>, Part<'t>, Part<'t>, Part<'t>, Part<'t>),
    ) -> Result<Part<'t>, AllocError>
        ensures { IfOk result (λ made. plain_part made ≡ makes.made_of_six make here
            (plain_part parts.entry.0) (plain_part parts.entry.1) (plain_part parts.entry.2)
            (plain_part parts.entry.3) (plain_part parts.entry.4) (plain_part parts.entry.5)) }
    {
        let (a, b, c, d, e, f) = parts;
        drop(a);
        match make {
            Six::Let => {
                drop(c);
                drop(e);
                let_in(alloc, here, b, d, f)
            }
            Six::If => {
                drop(c);
                drop(e);
                if_else(alloc, here, b, d, f)
            }
            Six::Selecting => {
                drop(b);
                drop(d);
                drop(f);
                selecting(alloc, here, c, e)
            }
        }
    }
}
