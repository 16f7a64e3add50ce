ghost use Rattle.std.specs.Prelude.{◌≡◌, false, [], ◌∷◌, ◌++◌, IfOk, IfErr, OnOk};
ghost use Rattle.std.specs.Str.{chars};
ghost use Rattle.cd_syntax.specs.Tokens.{Lexes};
ghost use Rattle.cd_syntax.specs.Faults.{IfFault, HasFirstFault};
ghost use Rattle.cd_lex.specs.Lexing.{with_characters};

use crate::lexer::{Kind, Lexeme, Lexer};
use cd_syntax::fault::TextError;
use cd_syntax::name::Name;
use cd_syntax::tokens::{Token, TokenKind};
use std::alloc::{AllocError, Global};

/// The tokens of a text, in their order, each with its place.
///
/// # Errors
///
/// The first fault of the text, or want of memory.
pub fn lex(alloc: Global, text: &str) -> Result<Vec<Token>, TextError>
    ensures tokens { IfOk result (λ tokens. Lexes false 0 (chars text.now) tokens.items) }
    ensures fault { IfErr result
        (λ error. IfFault error (HasFirstFault false 0 (chars text.now))) }
{
    let mut lexer = Lexer::new(alloc, text);
    let mut tokens = Vec::new(alloc);
    loop {
        match lexer.next()? {
            Lexeme::Token(kind, span) => {
                let kind = named(alloc, kind, lexer.spelled())?;
                add(&mut tokens, Token { kind, span })?;
            }
            Lexeme::End => return Ok(tokens),
        }
    }
}

fn add(tokens: &mut Vec<Token>, token: Token) -> Result<(), AllocError>
    ensures { OnOk result (tokens.new.items ≡ tokens.old.items ++ token ∷ []) }
{
    tokens.push(token)?;
    Ok(())
}

// A token of this kind with these characters.
fn named(alloc: Global, kind: Kind, text: &str) -> Result<TokenKind, AllocError>
    ensures { IfOk result (λ made. made ≡ with_characters kind (chars text.now)) }
{
    match kind {
        Kind::Word => Ok(TokenKind::Word(Name::of(alloc, text)?)),
        Kind::Int(number) => Ok(TokenKind::Int(number)),
        Kind::Chars => Ok(TokenKind::Chars(Name::of(alloc, text)?)),
        Kind::Text => Ok(TokenKind::Text(Name::of(alloc, text)?)),
        Kind::Atom => Ok(TokenKind::Atom(Name::of(alloc, text)?)),
        Kind::Sign(sign) => Ok(TokenKind::Sign(sign)),
    }
}
