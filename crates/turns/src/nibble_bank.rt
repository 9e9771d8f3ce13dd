// A bank with two turns in a byte: the even slot's in the low four bits, the odd one's in the high.
ghost use Rattle.std.specs.Prelude.{◌≡◌, ◌+◌, ◌*◌, ◌/◌, ◌%◌, ◌<◌, length};
ghost use Rattle.turns.specs.Layouts.{nibble_cycle, nibble_turns};
ghost use Rattle.turns.specs.Rows.{cleared};
ghost use Rattle.turns.specs.Nibbles.{nibble_row};
ghost use Rattle.std.proofs.Common.{rules};

use super::bank::{Bank, SLOTS};
use super::ticket::Turn;

// Every byte is lawful. Banks lie in memory of a fixed length. The length is stated since a law over every bank cannot read it off
// the type.
#[derive(Drop)]
pub struct NibbleBank {
    bytes: [u8; SLOTS / 2],
    ghost long: { length bytes ≡ 32 },
}

impl NibbleBank {
    // A bank whose turns are all 0.
    pub fn new() -> NibbleBank
        ensures { nibble_turns result.bytes ≡ cleared }
    {
        NibbleBank {
            bytes: [0; SLOTS / 2],
        }
    }
}

// The turns in a byte: of the even slot and of the odd one.
fn unpacked(byte: u8) -> (u8, u8)
    ensures { result ≡ (byte % 16, byte / 16) }
{
    (byte & 0x0F, byte >> 4)
}

// The byte of two turns.
fn packed(even: u8, odd: u8) -> u8
    requires { (even < 16) × (odd < 16) }
    ensures { result ≡ odd * 16 + even }
{
    odd << 4 | even
}

impl Bank for NibbleBank {
    const CYCLE: u32 = 16;

    ghost CYCLE = { nibble_cycle };

    ghost row = { λ bank. nibble_turns bank.bytes };

    ghost least = { Prim.search rules };

    ghost most = { Prim.search rules };

    ghost lawful = { λ bank. nibble_row bank.bytes bank.long };

    fn clear(&mut self) {
        *self = NibbleBank::new();
    }

    fn holds(&self, slot: usize, turn: Turn) -> bool {
        if slot >= SLOTS {
            return false;
        }
        let (even, odd) = unpacked(self.bytes[slot / 2]);
        let held = if slot % 2 == 0 { even } else { odd };
        held as Turn == turn
    }

    // The other turn of the byte stays.
    fn advance(&mut self, slot: usize) {
        if slot >= SLOTS {
            return;
        }
        let byte = &mut self.bytes[slot / 2];
        let (even, odd) = unpacked(*byte);
        *byte = if slot % 2 == 0 {
            packed((even + 1) % 16, odd)
        } else {
            packed(even, (odd + 1) % 16)
        };
    }
}
