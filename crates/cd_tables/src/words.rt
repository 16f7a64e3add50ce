ghost use Rattle.std.specs.Prelude.{◌≡◌, IsTrue};
ghost use Rattle.std.specs.Str.{chars};
ghost use Rattle.cd_tables.specs.Spelling.{rises};
ghost use Rattle.cd_tables.specs.Rows.{row_of, rows_of, fields_of};
ghost use Rattle.cd_tables.specs.Words.{keywords as all_keywords, type_names as all_type_names};
ghost use Rattle.cd_tables.specs.Words.{operators as all_operators, built_ins as all_built_ins};

use crate::keyword::Keyword;
use crate::row::TableRow;
use crate::table::Table;
use cd_program::operator::{BuiltIn, Op};
use cd_syntax::builtin::BuiltinName;

// The byte of a word at a place, and 0 past its end.
macro_rules! byte {
    ($word:literal, $place:literal) => {
        if $place < $word.len() { $word[$place] } else { 0 }
    };
}

// A field with a word, and zeros after it.
macro_rules! field {
    ($word:literal, $($place:literal)*) => { [$(byte!($word, $place)),*] };
}

// A row with a word and its value.
macro_rules! row {
    ($word:literal, $value:expr) => {
        TableRow {
            spelling: field!($word, 0 1 2 3 4 5 6 7 8 9 10 11 12 13 14 15),
            value: $value,
        }
    };
}

static KEYWORDS: [TableRow<Keyword>; 25] = [
    row!(b"and", Keyword::And),
    row!(b"div", Keyword::Div),
    row!(b"else", Keyword::Else),
    row!(b"flatten", Keyword::Flatten),
    row!(b"from", Keyword::From),
    row!(b"fun", Keyword::Fun),
    row!(b"if", Keyword::If),
    row!(b"in", Keyword::In),
    row!(b"int_of", Keyword::IntOf),
    row!(b"let", Keyword::Let),
    row!(b"map", Keyword::Map),
    row!(b"match", Keyword::Match),
    row!(b"max_of", Keyword::MaxOf),
    row!(b"min_of", Keyword::MinOf),
    row!(b"mod", Keyword::Mod),
    row!(b"not", Keyword::Not),
    row!(b"raise", Keyword::Raise),
    row!(b"select", Keyword::Select),
    row!(b"string_of", Keyword::StringOf),
    row!(b"then", Keyword::Then),
    row!(b"transform", Keyword::Transform),
    row!(b"try", Keyword::Try),
    row!(b"type", Keyword::Type),
    row!(b"where", Keyword::Where),
    row!(b"with", Keyword::With),
];

static TYPE_NAMES: [TableRow<BuiltinName>; 14] = [
    row!(b"Any", BuiltinName::Any),
    row!(b"AnyXml", BuiltinName::AnyXml),
    row!(b"Arrow", BuiltinName::Arrow),
    row!(b"Atom", BuiltinName::Atom),
    row!(b"Bool", BuiltinName::Bool),
    row!(b"Byte", BuiltinName::Byte),
    row!(b"Char", BuiltinName::Char),
    row!(b"Data", BuiltinName::Data),
    row!(b"Empty", BuiltinName::Empty),
    row!(b"Int", BuiltinName::Int),
    row!(b"Pair", BuiltinName::Pair),
    row!(b"Record", BuiltinName::Record),
    row!(b"String", BuiltinName::String),
    row!(b"_", BuiltinName::Any),
];

static OPERATORS: [TableRow<Op>; 14] = [
    row!(b"!=", Op::Unequal),
    row!(b"&&", Op::And),
    row!(b"*", Op::Times),
    row!(b"+", Op::Plus),
    row!(b"-", Op::Minus),
    row!(b"<", Op::Less),
    row!(b"<=", Op::AtMost),
    row!(b"=", Op::Equal),
    row!(b">", Op::Greater),
    row!(b">=", Op::AtLeast),
    row!(b"@", Op::Concat),
    row!(b"div", Op::Div),
    row!(b"mod", Op::Mod),
    row!(b"||", Op::Or),
];

static BUILT_INS: [TableRow<BuiltIn>; 7] = [
    row!(b"flatten", BuiltIn::Flatten),
    row!(b"int_of", BuiltIn::IntOf),
    row!(b"max_of", BuiltIn::MaxOf),
    row!(b"min_of", BuiltIn::MinOf),
    row!(b"not", BuiltIn::Not),
    row!(b"raise", BuiltIn::Raise),
    row!(b"string_of", BuiltIn::StringOf),
];

/// The keyword with this spelling, if there is one.
pub fn keyword(spelling: &str) -> Option<Keyword>
    ensures { result ≡ row_of all_keywords (chars spelling.now) }
{
    Table::new(keywords()).find(spelling)
}

/// The type that is built in under this name, if there is one.
pub fn type_name(spelling: &str) -> Option<BuiltinName>
    ensures { result ≡ row_of all_type_names (chars spelling.now) }
{
    Table::new(type_names()).find(spelling)
}

/// The operator between two operands with this spelling, if there is one.
pub fn operator(spelling: &str) -> Option<Op>
    ensures { result ≡ row_of all_operators (chars spelling.now) }
{
    Table::new(operators()).find(spelling)
}

/// The word before an operand with this spelling, if there is one.
pub fn built_in(spelling: &str) -> Option<BuiltIn>
    ensures { result ≡ row_of all_built_ins (chars spelling.now) }
{
    Table::new(built_ins()).find(spelling)
}

fn keywords() -> &'static [TableRow<Keyword>; 25]
    ensures rows { rows_of result.now ≡ all_keywords }
    ensures rising { IsTrue (rises (fields_of result.now)) }
{
    &KEYWORDS
}

fn type_names() -> &'static [TableRow<BuiltinName>; 14]
    ensures rows { rows_of result.now ≡ all_type_names }
    ensures rising { IsTrue (rises (fields_of result.now)) }
{
    &TYPE_NAMES
}

fn operators() -> &'static [TableRow<Op>; 14]
    ensures rows { rows_of result.now ≡ all_operators }
    ensures rising { IsTrue (rises (fields_of result.now)) }
{
    &OPERATORS
}

fn built_ins() -> &'static [TableRow<BuiltIn>; 7]
    ensures rows { rows_of result.now ≡ all_built_ins }
    ensures rising { IsTrue (rises (fields_of result.now)) }
{
    &BUILT_INS
}
