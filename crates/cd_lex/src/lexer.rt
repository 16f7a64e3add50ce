//! The tokens of a text, one after the other.
ghost use Rattle.std.specs.Prelude.{◌≤◌};
ghost use Rattle.cd_syntax.specs.Tokens.{bytes as bytes_of};

use crate::buffer::Buffer;
use crate::cursor::Cursor;
use crate::next_token::{joins, read_lexeme, read_simple};
use cd_syntax::fault::TextError;
use cd_syntax::sign::Sign;
use cd_syntax::tokens::Span;
use std::alloc::Global;

/// What a token is, without its characters.
#[derive(Clone, Copy)]
pub enum Kind {
    /// A word.
    Word,
    /// An integer.
    Int(i128),
    /// The characters between two `'`.
    Chars,
    /// The characters between two `"`.
    Text,
    /// An atom.
    Atom,
    /// A sign.
    Sign(Sign),
}

/// What stands next in a text.
#[derive(Clone, Copy)]
pub enum Lexeme {
    /// A token, and where it stands.
    Token(Kind, Span),
    /// The end of the text.
    End,
}

/// What is left of a text, and the characters of the token that was read last.
#[derive(Drop)]
pub struct Lexer<'t> {
    cursor: Cursor<'t>,
    end: usize,
    joined: bool,
    buffer: Buffer<'t>,
    ghost fits: { bytes_of cursor ≤ end },
}

impl<'t> Lexer<'t> {
    ghost use Rattle.std.specs.Prelude.{◌≡◌, false, IfOk, IfErr};
    ghost use Rattle.std.specs.Str.{chars};
    ghost use Rattle.cd_syntax.specs.Faults.{IfFault};
    ghost use Rattle.cd_lex.specs.Lexing.{left, place, is_joined, spelled as spelled_by};
    ghost use Rattle.cd_lex.specs.Lexing.{IsNext, FailsOn};

    /// The start of a text.
    pub fn new(alloc: Global, text: &'t str) -> Lexer<'t>
        ensures left { left result ≡ chars text.now }
        ensures place { place result ≡ 0 }
        ensures joined { is_joined result ≡ false }
    {
        let cursor = Cursor::new(text);
        let end = cursor.bytes();
        Lexer {
            cursor,
            end,
            joined: false,
            buffer: Buffer::new(alloc),
        }
    }

    /// What stands next, which is taken off the text.
    ///
    /// # Errors
    ///
    /// The first fault of the text, or want of memory. After it nothing is promised.
    pub fn next(&mut self) -> Result<Lexeme, TextError>
        ensures next { IfOk result (λ lexeme. IsNext self.old lexeme self.new) }
        ensures fault { IfErr result (λ error. IfFault error (FailsOn self.old)) }
    {
        let mut cursor = self.cursor.again();
        let Some((kind, span)) = read_simple(&mut cursor, &mut self.buffer, self.joined, self.end)
        else {
            return self.next_of_any();
        };
        self.cursor = cursor;
        self.joined = joins(kind);
        Ok(Lexeme::Token(kind, span))
    }

    // The same, for any token.
    #[inline(never)]
    fn next_of_any(&mut self) -> Result<Lexeme, TextError>
        ensures next { IfOk result (λ lexeme. IsNext self.old lexeme self.new) }
        ensures fault { IfErr result (λ error. IfFault error (FailsOn self.old)) }
    {
        let mut cursor = self.cursor.again();
        let lexeme = read_lexeme(&mut cursor, &mut self.buffer, self.joined, self.end)?;
        if let Lexeme::Token(kind, _) = lexeme {
            self.cursor = cursor;
            self.joined = joins(kind);
        }
        Ok(lexeme)
    }

    /// The characters of the token that was read last: the word, the name of the atom, or what
    /// stands between the quotes.
    pub fn spelled(&self) -> &str
        ensures { chars result.now ≡ spelled_by self.now }
    {
        self.buffer.as_str()
    }
}
