//! The tokens of a text.
#![tactic(auto)]

mod buffer;
mod comment;
mod cursor;
pub mod laws;
pub mod lexer;
pub mod lexing;
mod next_token;
mod number;
mod piece;
mod quoted;
mod run;
mod signs;
mod word;

pub use cd_syntax::fault::{TextError, TextFault};
pub use cd_syntax::tokens::{Span, Token, TokenKind};
pub use lexer::{Kind, Lexeme, Lexer};
pub use lexing::lex;
