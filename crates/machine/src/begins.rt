// Beginning operations.
ghost use Rattle.std.specs.Prelude.{◌≡◌};
ghost use Rattle.world.specs.Calls.{pop_begun, push_begun};
ghost use Rattle.machine.specs.Begins.{begun};

use super::state::Machine;
use history::entry::Kind;
use turns::bank::Bank;
use world::phase::Phase;
use world::refusal::Refusal;

// An idle thread is about to take; any other is busy.
fn begin(row: &mut Phase, kind: Kind) -> Result<(), Refusal>
    ensures { (result, row.new) ≡ begun row.old kind }
{
    if *row != Phase::Idle {
        return Err(Refusal::Busy);
    }
    *row = Phase::Taking(kind);
    Ok(())
}

impl<B: Bank> Machine<B> {
    // An idle thread begins to push this element, which goes into its hand.
    pub fn begin_push<T: Copy>(
        &mut self,
        thread: u8,
        element: T,
        hands: &mut [T],
    ) -> Result<(), Refusal>
        ensures bank { self.new.bank ≡ self.old.bank }
        ensures answer { (result, self.new.table, hands.new) ≡ push_begun self.old.table thread element hands.old }
    {
        let i = self.hand(thread, hands)?;
        begin(&mut self.table.threads[i], Kind::Push)?;
        hands[i] = element;
        Ok(())
    }

    // An idle thread begins to pop. It is a call of its own, since it is lent no hands and has no element.
    pub fn begin_pop(&mut self, thread: u8) -> Result<(), Refusal>
        ensures bank { self.new.bank ≡ self.old.bank }
        ensures answer { (result, self.new.table) ≡ pop_begun self.old.table thread }
    {
        let i = self.row(thread)?;
        begin(&mut self.table.threads[i], Kind::Pop)
    }
}
