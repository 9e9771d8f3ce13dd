// What a machine tells of itself.
ghost use Rattle.std.specs.Prelude.{◌≡◌};
ghost use Rattle.world.specs.Queries.{at_rest, phase_answer, rests, waiting_threads};

use super::state::Machine;
use turns::bank::Bank;
use turns::ticket::Ticket;
use world::phase::Phase;
use world::refusal::Refusal;

impl<B> Machine<B> {
    // How many push tickets are handed out.
    pub fn pushes(&self) -> Ticket
        ensures { result ≡ self.now.table.pushes }
    {
        self.table.pushes
    }

    // How many pop tickets are handed out.
    pub fn pops(&self) -> Ticket
        ensures { result ≡ self.now.table.pops }
    {
        self.table.pops
    }

    // How many entries of the record are used.
    pub fn used(&self) -> usize
        ensures { result ≡ self.now.table.used }
    {
        self.table.used
    }

    pub fn phase(&self, thread: u8) -> Result<Phase, Refusal>
        ensures { result ≡ phase_answer self.now.table thread }
    {
        let i = self.row(thread)?;
        Ok(self.table.threads[i])
    }

    // How many threads are at the wait.
    pub fn waiting(&self) -> u8
        ensures { result ≡ waiting_threads self.now.table }
    {
        let count = self.table.shape.threads() as usize;
        self.table.threads[..count]
            .iter()
            .filter(|phase| matches!(phase, Phase::Waiting(_, _)))
            .count() as u8
    }
}

impl<B: Bank> Machine<B> {
    // A thread rests when it is idle, done, or at the wait for a turn that has not come.
    fn rests(&self, phase: Phase) -> bool
        ensures { result ≡ rests B.Bank.CYCLE (B.Bank.row self.now.bank) self.now.table.shape.slots phase }
    {
        match phase {
            Phase::Idle | Phase::Done(_, _) => true,
            Phase::Waiting(kind, ticket) => !self.turn_came(kind, ticket),
            _ => false,
        }
    }

    // Whether every thread rests.
    pub fn at_rest(&self) -> bool
        ensures { result ≡ at_rest B.Bank.CYCLE (B.Bank.row self.now.bank) self.now.table }
    {
        let count = self.table.shape.threads() as usize;
        self.table.threads[..count]
            .iter()
            .all(|phase| self.rests(*phase))
    }
}
