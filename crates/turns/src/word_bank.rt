// A bank with a 32-bit word for each slot: the turn in the upper 26 bits, the low six zero.
ghost use Rattle.std.specs.Prelude.{◌≡◌, ℕ, ◌%◌, ◌<◌, length, slice_index};
ghost use Rattle.turns.specs.Layouts.{word_cycle, word_turns};
ghost use Rattle.turns.specs.Rows.{cleared};
ghost use Rattle.turns.specs.Words.{word_row};
ghost use Rattle.std.proofs.Common.{rules};

use super::bank::{Bank, SLOTS};
use super::ticket::Turn;

// The turn stands above this many bits.
const LOW_BITS: u32 = 6;

// The low bits of each word are zero. Banks lie in memory of a fixed length. The length is stated since a law over every bank
// cannot read it off the type.
#[derive(Drop)]
pub struct WordBank {
    words: [u32; SLOTS],
    ghost long: { length words ≡ 64 },
    ghost clean: { (slot : ℕ) → slot < 64 → slice_index words slot % 64 ≡ 0 },
}

impl WordBank {
    // A bank whose turns are all 0.
    pub fn new() -> WordBank
        ensures { word_turns result.words ≡ cleared }
    {
        WordBank { words: [0; SLOTS] }
    }
}

impl Bank for WordBank {
    const CYCLE: u32 = 1 << 26;

    ghost CYCLE = { word_cycle };

    ghost row = { λ bank. word_turns bank.words };

    ghost least = { Prim.search rules };

    ghost most = { Prim.search rules };

    ghost lawful = { λ bank. word_row bank.words bank.long };

    fn clear(&mut self) {
        *self = WordBank::new();
    }

    fn holds(&self, slot: usize, turn: Turn) -> bool {
        if slot >= SLOTS {
            return false;
        }
        (self.words[slot] >> LOW_BITS) as Turn == turn
    }

    // After the last turn the carry falls off the word.
    fn advance(&mut self, slot: usize) {
        if slot >= SLOTS {
            return;
        }
        self.words[slot] = self.words[slot].wrapping_add(1 << LOW_BITS);
    }
}
