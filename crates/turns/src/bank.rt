// What a bank of turns means, whichever way it is laid out.
ghost use Rattle.std.specs.Prelude.{◌≡◌, ℕ, ◌≤◌, List};
ghost use Rattle.turns.specs.Rows.{Row, advanced, cleared, holding, reduced_by};

use super::ticket::Turn;

// How many slots have a turn in a bank.
pub const SLOTS: usize = 64;

// A bank keeps the current turn of each slot, as a remainder by its cycle: it means a row of 64
// numbers below the cycle. Code above knows the row and the cycle and never how they are laid out,
// so a later kind of bank joins by its impl alone.
pub trait Bank {
    // How many turns go round: each kind of bank states its own, in code and for clauses.
    const CYCLE: u32;

    ghost CYCLE: { ℕ };

    // The turns that a bank means.
    ghost row: { Self → List ℕ };

    // Makes all turns 0.
    fn clear(&mut self)
        ensures { row self.new ≡ cleared };

    // Whether the slot's turn is this number; never so at a slot past the last. Any turn may be asked
    // for, as wide as turns are computed, so that none has to be cut to fit: one that was not
    // reduced by the cycle is simply not held.
    fn holds(&self, slot: usize, turn: Turn) -> bool
        ensures { result ≡ holding (row self.now) slot turn };

    // Adds one to the slot's turn, going from the cycle's last to 0; a slot past the last alters
    // nothing.
    fn advance(&mut self, slot: usize)
        ensures { row self.new ≡ advanced CYCLE (row self.old) slot };

    // Each impl owes these, so no bank outside them can be written.
    ghost least: { 2 ≤ CYCLE };

    ghost most: { CYCLE ≤ 4294967295 };

    ghost lawful: { (bank : Self) → Row CYCLE (row bank) };
}

// A turn as this kind of bank keeps it, the number to test for.
pub fn reduced<B: Bank>(turn: Turn) -> Turn
    ensures { result ≡ reduced_by B.Bank.CYCLE turn }
{
    turn % B::CYCLE as Turn
}
