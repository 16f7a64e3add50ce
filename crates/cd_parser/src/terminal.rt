//! The terminal of each token: its number among the terminals of the grammar.
ghost use Rattle.std.specs.Prelude.{◌≡◌};
ghost use Rattle.cd_grammar.specs.Terminals.{terminal_of, terminal_of_word, terminal_of_keyword};
ghost use Rattle.cd_grammar.specs.Terminals.{terminal_of_other, terminal_of_goal};

use cd_grammar::goal::Goal;
use cd_syntax::name::Name;
use cd_syntax::tokens::TokenKind;
use cd_tables::keyword::Keyword;
use cd_tables::words::keyword;

/// That of a token.
pub(crate) fn terminal_of(kind: &TokenKind) -> u8
    ensures { result ≡ terminal_of kind.now }
{
    match kind {
        TokenKind::Word(name) => terminal_of_word(name),
        TokenKind::Int(_) => 66,
        TokenKind::Chars(text) => match text.only_character() {
            Some(_) => 67,
            None => 68,
        },
        TokenKind::Text(_) => 69,
        TokenKind::Atom(_) => 70,
        TokenKind::Sign(sign) => *sign as u8,
    }
}

/// That of what a text is to be.
pub(crate) fn terminal_of_goal(goal: Goal) -> u8
    ensures { result ≡ terminal_of_goal goal }
{
    match goal {
        Goal::TypeText => 73,
        Goal::TypeFile => 74,
        Goal::ProgramText => 75,
    }
}

fn terminal_of_word(name: &Name) -> u8
    ensures { result ≡ terminal_of_word name.now }
{
    if name.is_type_name() {
        return 71;
    }
    match keyword(name.as_str()) {
        Some(word) => terminal_of_keyword(word),
        None => terminal_of_other(name),
    }
}

fn terminal_of_keyword(word: Keyword) -> u8
    ensures { result ≡ terminal_of_keyword word }
{
    match word {
        Keyword::Type => 41,
        Keyword::Let => 42,
        Keyword::Fun => 43,
        Keyword::In => 44,
        Keyword::Match => 45,
        Keyword::With => 46,
        Keyword::If => 47,
        Keyword::Then => 48,
        Keyword::Else => 49,
        Keyword::Try => 50,
        Keyword::Map => 51,
        Keyword::Transform => 52,
        Keyword::Where => 53,
        Keyword::And => 54,
        Keyword::Div => 55,
        Keyword::Mod => 56,
        Keyword::Not => 57,
        Keyword::Flatten => 58,
        Keyword::IntOf => 59,
        Keyword::StringOf => 60,
        Keyword::MinOf => 61,
        Keyword::MaxOf => 62,
        Keyword::Raise => 63,
        Keyword::Select => 64,
        Keyword::From => 65,
    }
}

// That of a word that is no keyword: `_`, the name of a type, or a variable.
fn terminal_of_other(name: &Name) -> u8
    ensures { result ≡ terminal_of_other name.now }
{
    if name.only_character() == Some('_') {
        return 40;
    }
    if name.is_type_name() { 71 } else { 72 }
}
