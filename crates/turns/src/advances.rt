// Many advances of one slot.
ghost use Rattle.std.specs.Prelude.{◌≡◌};
ghost use Rattle.turns.specs.Advances.{AdvancesCount, advanced_times};

use super::bank::Bank;

// Advances a slot this many times, which brings it to any turn of its cycle. The law says what so
// many advances leave: a bank that was cleared before counts them, modulo its cycle.
pub fn advance_many<B: Bank>(bank: &mut B, slot: usize, times: u64)
    ensures after { B.Bank.row bank.new ≡ advanced_times B.Bank.CYCLE (B.Bank.row bank.old) slot times }
    ensures law { AdvancesCount }
{
    for _ in 0..times {
        bank.advance(slot);
    }
}
