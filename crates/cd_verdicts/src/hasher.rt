//! How questions are hashed.
ghost use Rattle.std.specs.Prelude.{◌≡◌};
ghost use Rattle.cd_verdicts.specs.Hashing.{add_word, add_bytes};

use std::hash::Hasher;

const MULTIPLIER: u64 = 0x9e37_79b9_7f4a_7c15;

/// A hasher that adds and multiplies once for each number. It begins at a number that all know, so
/// whoever chooses the questions can make them collide.
#[derive(Clone, Copy, Default)]
pub struct WordHasher {
    state: u64,
}

impl Hasher for WordHasher {
    ghost write = { λ hasher bytes. record { state = add_bytes hasher.state bytes } };

    ghost finish = { λ hasher. hasher.state };

    #[inline(always)]
    fn finish(&self) -> u64 {
        self.state
    }

    // Eight bytes are one word, and else each byte is one.
    #[inline(always)]
    fn write(&mut self, bytes: &[u8]) {
        let mut state = self.state;
        if bytes.len() == 8 {
            let word = u64::from_le_bytes([
                bytes[0], bytes[1], bytes[2], bytes[3], bytes[4], bytes[5], bytes[6], bytes[7],
            ]);
            self.state = with_word(state, word);
            return;
        }
        for byte in bytes {
            state = with_word(state, *byte as u64);
        }
        self.state = state;
    }

    // Its bytes are one word.
    #[inline(always)]
    fn write_usize(&mut self, i: usize) {
        self.state = with_word(self.state, i as u64);
    }
}

// The state after one word.
#[inline(always)]
fn with_word(state: u64, word: u64) -> u64
    ensures { result ≡ add_word state word }
{
    state.wrapping_add(word).wrapping_mul(MULTIPLIER)
}
