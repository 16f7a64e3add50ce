ghost use Rattle.std.specs.Prelude.{◌≡◌};
ghost use Rattle.std.specs.List.{prefix_len};
ghost use Rattle.cd_lex.specs.Inner.Runs.{belongs};

/// Characters that are taken off a text at once.
#[derive(Clone, Copy)]
pub(crate) enum Run {
    /// ASCII letters, digits and `_`.
    Word,
    /// Blanks.
    Blank,
    /// All but this quote and `\`.
    Quoted(char),
}

impl Run {
    #[inline(always)]
    fn has(self, byte: u8) -> bool
        ensures { result ≡ belongs self byte }
    {
        match self {
            Run::Word => byte.is_ascii_alphanumeric() || byte == b'_',
            Run::Blank => matches!(byte, b' ' | b'\t' | b'\n' | b'\r'),
            Run::Quoted(quote) => byte as char != quote && byte != b'\\',
        }
    }

    /// How many bytes at the start belong to the run.
    #[inline(always)]
    pub(crate) fn length(self, bytes: &[u8]) -> usize
        ensures { result ≡ prefix_len (belongs self) bytes.now }
    {
        let mut length = 0;
        while length < bytes.len() && self.has(bytes[length]) {
            length += 1;
        }
        length
    }
}
