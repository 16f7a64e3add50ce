//! What the automaton asks of the parts that it reads.
ghost use Rattle.std.specs.Prelude.{◌≡◌, IfOk};
ghost use Rattle.cd_grammar.specs.Parts.{Part as PlainPart, AToken, Junk};
ghost use Rattle.cd_grammar.specs.Makes as makes;

use cd_grammar::make::{Five, Four, One, Six, Three, Two};
use cd_syntax::tokens::{Span, Token};
use std::alloc::{AllocError, Global};

/// Parts that tokens and rules make, which the automaton keeps on its stack.
pub(crate) trait Parts<'t>: Drop {
    /// A part as plain data.
    ghost plain: { Self → PlainPart };

    /// A token.
    fn of_token(token: &'t Token) -> Self
        ensures { plain result ≡ AToken token.now };

    /// Nothing of use.
    fn junk() -> Self
        ensures { plain result ≡ Junk };

    /// What a rule makes of one part.
    ///
    /// # Errors
    ///
    /// Want of memory.
    fn make_of_one(alloc: Global, make: One, here: Span, a: Self) -> Result<Self, AllocError>
        ensures { IfOk result
            (λ made. plain made ≡ makes.made_of_one make here (plain a)) };

    /// The same of two.
    ///
    /// # Errors
    ///
    /// Want of memory.
    fn make_of_two(
        alloc: Global,
        make: Two,
        here: Span,
        a: Self,
        b: Self,
    ) -> Result<Self, AllocError>
        ensures { IfOk result
            (λ made. plain made ≡ makes.made_of_two make here (plain a) (plain b)) };

    /// The same of three.
    ///
    /// # Errors
    ///
    /// Want of memory.
    fn make_of_three(
        alloc: Global,
        make: Three,
        here: Span,
        a: Self,
        b: Self,
        c: Self,
    ) -> Result<Self, AllocError>
        ensures { IfOk result
            (λ made. plain made ≡ makes.made_of_three make here (plain a) (plain b) (plain c)) };

    /// The same of four.
    ///
    /// # Errors
    ///
    /// Want of memory.
    fn make_of_four(
        alloc: Global,
        make: Four,
        here: Span,
        a: Self,
        b: Self,
        c: Self,
        d: Self,
    ) -> Result<Self, AllocError>
        ensures { IfOk result
            (λ made. plain made
            ≡ makes.made_of_four make here (plain a) (plain b) (plain c) (plain d)) };

    /// The same of five.
    ///
    /// # Errors
    ///
    /// Want of memory.
    fn make_of_five(
        alloc: Global,
        make: Five,
        here: Span,
        parts: (Self, Self, Self, Self, Self),
    ) -> Result<Self, AllocError>
        ensures { IfOk result
            (λ made. plain made ≡ makes.made_of_five make here (plain parts.0) (plain parts.1)
            (plain parts.2) (plain parts.3) (plain parts.4)) };

    /// The same of six.
    ///
    /// # Errors
    ///
    /// Want of memory.
    fn make_of_six(
        alloc: Global,
        make: Six,
        here: Span,
        parts: (Self, Self, Self, Self, Self, Self),
    ) -> Result<Self, AllocError>
        ensures { IfOk result
            (λ made. plain made ≡ makes.made_of_six make here (plain parts.0) (plain parts.1)
            (plain parts.2) (plain parts.3) (plain parts.4) (plain parts.5)) };
}
