ghost use Rattle.std.specs.Prelude.{◌≡◌, IsTrue};
ghost use Rattle.std.specs.Str.{chars};
ghost use Rattle.cd_syntax.specs.declared.tokens.TokenKind.TheVariants as token;
ghost use Rattle.cd_syntax.specs.Name.{Name as AName, only, is_word};
ghost use Rattle.cd_documents.specs.Terminal.{terminal, opens};
ghost use Rattle.cd_lex.specs.Lexing.{with_characters, IsSoundKind};
ghost use Rattle.cd_notation.specs.Inner.PlainTerminal.{plain_terminal, IsNamed};

use cd_lex::Kind;
use cd_syntax::sign::Sign;

/// What a token is in a document, without its characters.
#[derive(Clone, Copy)]
pub(crate) enum Terminal {
    Number(i128),
    Letters,
    Text,
    Atom,
    Label,
    OpenTuple,
    CloseTuple,
    OpenSequence,
    CloseSequence,
    OpenRecord,
    CloseRecord,
    OpenTag,
    CloseTag,
    Equal,
    Comma,
    Semicolon,
    Other,
}

impl Terminal {
    /// Whether it is an opening bracket.
    pub(crate) fn opens(self) -> bool
        ensures { (name : AName) → result ≡ opens (plain_terminal self name) }
    {
        match self {
            Terminal::OpenTuple
            | Terminal::OpenSequence
            | Terminal::OpenRecord
            | Terminal::OpenTag => true,
            _ => false,
        }
    }
}

/// What a token is in a document.
pub(crate) fn terminal_of(kind: Kind, name: &str) -> Terminal
    requires { IsSoundKind (with_characters kind (chars name.now)) }
    ensures is { plain_terminal result (chars name.now)
        ≡ terminal (with_characters kind (chars name.now)) }
    ensures named { IsNamed result (chars name.now) }
{
    match kind {
        Kind::Word => label_or_other(name),
        Kind::Int(n) => Terminal::Number(n),
        Kind::Chars => Terminal::Letters,
        Kind::Text => Terminal::Text,
        Kind::Atom => Terminal::Atom,
        Kind::Sign(sign) => sign_terminal(sign),
    }
}

// A word is a label, unless it is `_`.
fn label_or_other(name: &str) -> Terminal
    requires { IsTrue (is_word (chars name.now)) }
    ensures is { plain_terminal result (chars name.now) ≡ terminal (token.Word (chars name.now)) }
    ensures named { IsNamed result (chars name.now) }
{
    if name == "_" {
        return Terminal::Other;
    }
    Terminal::Label
}

fn sign_terminal(sign: Sign) -> Terminal
    ensures is { (name : AName)
        → plain_terminal result name ≡ terminal (token.Sign sign) }
    ensures named { (name : AName) → IsNamed result name }
{
    match sign {
        Sign::OpenParenthesis => Terminal::OpenTuple,
        Sign::CloseParenthesis => Terminal::CloseTuple,
        Sign::OpenBracket => Terminal::OpenSequence,
        Sign::CloseBracket => Terminal::CloseSequence,
        Sign::OpenBrace => Terminal::OpenRecord,
        Sign::CloseBrace => Terminal::CloseRecord,
        Sign::Less => Terminal::OpenTag,
        Sign::Greater => Terminal::CloseTag,
        Sign::Equal => Terminal::Equal,
        Sign::Comma => Terminal::Comma,
        Sign::Semicolon => Terminal::Semicolon,
        _ => Terminal::Other,
    }
}

/// The one character of a text that has just one.
pub(crate) fn only_character(text: &str) -> Option<char>
    ensures { result ≡ only (chars text.now) }
{
    let mut rest = text.chars();
    let first = rest.next()?;
    match rest.next() {
        Some(_) => None,
        None => Some(first),
    }
}
