// The step table.
ghost use Rattle.std.specs.Prelude.{◌≡◌};
ghost use Rattle.world.specs.Steps.{past_wait, stepped};
ghost use Rattle.world.specs.Worlds.{world};

use super::state::Machine;
use super::takes::take;
use history::entry::{Entry, Kind};
use turns::bank::Bank;
use turns::ticket::Ticket;
use world::cell::{Cell, Mark};
use world::phase::Phase;
use world::refusal::Refusal;
use world::step::Step;

// Behind the wait, a push stores and a pop reads.
fn past_wait(kind: Kind, ticket: Ticket) -> Phase
    ensures { result ≡ past_wait kind ticket }
{
    match kind {
        Kind::Push => Phase::Storing(ticket),
        Kind::Pop => Phase::Reading(ticket),
    }
}

impl<B: Bank> Machine<B> {
    // One step of a thread: the thread's phase and the bank's answer together say which, and the
    // phase is replaced in place. A refused step alters nothing. The match on both, over the one row
    // that is lent, is a form that the project asks for, and so are cells, hands and record lent one by one.
    pub fn step<T: Copy>(
        &mut self,
        thread: u8,
        cells: &mut [Cell<T>],
        hands: &mut [T],
        entries: &mut [Entry<T>],
    ) -> Result<(Step, Ticket), Refusal>
        ensures answer { (result, world (B.Bank.row self.new.bank) self.new.table cells.new hands.new entries.new) ≡ stepped B.Bank.CYCLE (world (B.Bank.row self.old.bank) self.old.table cells.old hands.old entries.old) thread }
    {
        let shape = self.table.shape;
        let i = self.hand(thread, hands)?;
        if cells.len() != shape.slots() as usize || entries.len() < self.table.used {
            return Err(Refusal::Misfit);
        }
        let free = entries.len() - self.table.used;
        let came = self.admits(self.table.threads[i], free)?;
        let row = &mut self.table.threads[i];
        match (*row, came) {
            (Phase::Idle | Phase::Done(_, _), _) => Err(Refusal::NoWork),
            (Phase::Taking(kind), _) => {
                let ticket = take(&mut self.table, kind, thread, hands, entries);
                Ok((Step::Took, ticket))
            }
            (Phase::Waiting(_, ticket), false) => Ok((Step::Waited, ticket)),
            (Phase::Waiting(kind, ticket), true) => {
                *row = past_wait(kind, ticket);
                Ok((Step::Passed, ticket))
            }
            (Phase::Storing(ticket), _) => {
                let (slot, _) = shape.split(ticket);
                cells[slot] = Cell {
                    element: hands[i],
                    mark: Mark::Full,
                };
                *row = Phase::Completing(Kind::Push, ticket);
                Ok((Step::Stored, ticket))
            }
            (Phase::Reading(ticket), _) => {
                let (slot, _) = shape.split(ticket);
                hands[i] = cells[slot].element;
                *row = Phase::Emptying(ticket);
                Ok((Step::Read, ticket))
            }
            (Phase::Emptying(ticket), _) => {
                let (slot, _) = shape.split(ticket);
                cells[slot].mark = Mark::Empty;
                *row = Phase::Completing(Kind::Pop, ticket);
                Ok((Step::Emptied, ticket))
            }
            (Phase::Completing(kind, ticket), _) => {
                let (slot, _) = shape.split(ticket);
                self.bank.advance(slot);
                *row = Phase::Done(kind, ticket);
                Ok((Step::Completed, ticket))
            }
        }
    }
}
