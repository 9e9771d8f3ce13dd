// Collecting finished operations.
ghost use Rattle.std.specs.Prelude.{◌≡◌};
ghost use Rattle.world.specs.Calls.{collected};

use super::state::Machine;
use history::entry::Kind;
use turns::bank::Bank;
use turns::ticket::Ticket;
use world::phase::Phase;
use world::refusal::Refusal;

impl<B: Bank> Machine<B> {
    // A done thread turns idle: its operation's kind and ticket, and the element in its hand.
    pub fn collect<T: Copy>(
        &mut self,
        thread: u8,
        hands: &[T],
    ) -> Result<(Kind, Ticket, T), Refusal>
        ensures bank { self.new.bank ≡ self.old.bank }
        ensures answer { (result, self.new.table) ≡ collected self.old.table thread hands.now }
    {
        let i = self.hand(thread, hands)?;
        let row = &mut self.table.threads[i];
        let Phase::Done(kind, ticket) = *row else {
            return Err(Refusal::Unfinished);
        };
        *row = Phase::Idle;
        Ok((kind, ticket, hands[i]))
    }
}
