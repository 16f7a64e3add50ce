//! What tokens have: names, characters and constants.
ghost use Rattle.std.specs.Prelude.{◌≡◌, IfOk};
ghost use Rattle.cd_grammar.specs.Actions as actions;

use cd_syntax::constant::Constant;
use cd_syntax::name::Name;
use cd_syntax::tokens::{Token, TokenKind};
use std::alloc::{AllocError, Global};

/// The name that a token is.
///
/// # Errors
///
/// Want of memory.
pub fn name_of(alloc: Global, token: &Token) -> Result<Name, AllocError>
    ensures { IfOk result (λ name. name ≡ actions.name_in token.now.kind) }
{
    match &token.kind {
        TokenKind::Word(name) => name.copy(),
        _ => Name::of_characters(alloc, &[]),
    }
}

/// The characters of a token between quotes, or of an atom.
///
/// # Errors
///
/// Want of memory.
pub fn characters_of(alloc: Global, token: &Token) -> Result<Name, AllocError>
    ensures { IfOk result (λ name. name ≡ actions.characters_in token.now.kind) }
{
    match &token.kind {
        TokenKind::Chars(name) => name.copy(),
        TokenKind::Text(name) => name.copy(),
        TokenKind::Atom(name) => name.copy(),
        TokenKind::Word(_) | TokenKind::Int(_) | TokenKind::Sign(_) => {
            Name::of_characters(alloc, &[])
        }
    }
}

/// The constant that a token is.
///
/// # Errors
///
/// Want of memory.
pub fn constant_of(kind: &TokenKind) -> Result<Option<Constant>, AllocError>
    ensures { IfOk result (λ found. found ≡ actions.constant_of kind.now) }
{
    match kind {
        TokenKind::Int(n) => Ok(Some(Constant::Int(*n))),
        TokenKind::Chars(text) => match text.only_character() {
            Some(c) => Ok(Some(Constant::Char(c))),
            None => Ok(None),
        },
        TokenKind::Text(text) => Ok(Some(Constant::Text(text.copy()?))),
        TokenKind::Atom(name) => Ok(Some(Constant::Atom(name.copy()?))),
        TokenKind::Word(_) | TokenKind::Sign(_) => Ok(None),
    }
}
