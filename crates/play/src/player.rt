// A player: a machine on its way through a run file, in the caller's buffers.
ghost use Rattle.std.specs.Prelude.{◌≡◌, ◌+◌, ◌^◌, ◌<◌, length, slice_index, IfSome};
ghost use Rattle.runfile.specs.Files.{contents_of};
ghost use Rattle.runfile.specs.Programs.{wide};
ghost use Rattle.play.specs.Moves.{begins, moved, next_operation};
ghost use Rattle.play.specs.Players.{Keeps, world_of};
ghost use Rattle.play.specs.Plays.{played};
ghost use Rattle.play.specs.Runs.{none_begun, whole_schedule};

use super::fault::Fault;
use super::schedule::Schedule;
use faults::numbered::Numbered;
use history::entry::Entry;
use machine::state::Machine;
use runfile::element::Element;
use runfile::operation::{Operation, read_operation};
use runfile::runs::RunFile;
use turns::bank::{Bank, SLOTS};
use world::cell::Cell;
use world::phase::Phase;
use world::refusal::Refusal;

#[derive(Drop)]
pub(crate) struct Player<'a, 'r, B, E> {
    machine: &'a mut Machine<B>,
    run: &'a RunFile<'r>,
    // How many bytes of each thread's program are begun: without a heap, a number for every thread that any
    // machine has.
    begun: [usize; SLOTS],
    cells: &'a mut [Cell<E>],
    hands: &'a mut [E],
    entries: &'a mut [Entry<E>],
}

impl<'a, 'r, B, E> Player<'a, 'r, B, E> {
    pub(crate) fn new(
        machine: &'a mut Machine<B>,
        run: &'a RunFile<'r>,
        cells: &'a mut [Cell<E>],
        hands: &'a mut [E],
        entries: &'a mut [Entry<E>],
    ) -> Player<'a, 'r, B, E>
        ensures { result ≡ record { machine = machine.entry; run = run.entry; begun = none_begun; cells = cells.entry; hands = hands.entry; entries = entries.entry } }
    {
        Player {
            machine,
            run,
            begun: [0; SLOTS],
            cells,
            hands,
            entries,
        }
    }
}

impl<B: Bank, E: Element> Player<'_, '_, B, E> {
    // A thread's next operation; none at the end of its program. The thread is one of the machine's, which
    // `move_thread` knows by its phase.
    fn next_operation(&self, thread: usize) -> Option<Operation<E>>
        requires { thread < 64 }
        ensures value { result ≡ next_operation E.Element.format (contents_of self.now.run.now) thread (slice_index self.now.begun thread) }
        ensures within { IfSome result (λ o. slice_index self.now.begun thread + wide E.Element.format.width o < 2 ^ 64) }
    {
        let rest = self.run.program(thread)?.get(self.begun[thread]..)?;
        read_operation(rest, 0).ok()
    }

    // An idle thread begins its next operation; where none is left it rests.
    fn begin_next(&mut self, thread: u8) -> Result<(), Refusal>
        requires { thread < 64 }
        ensures keeps { Keeps self.old self.new }
        ensures answer { (result, world_of B.Bank.row self.new, self.new.begun) ≡ begins E.Element.format (contents_of self.old.run.now) (world_of B.Bank.row self.old) self.old.begun thread }
    {
        let i = thread as usize;
        let Some(operation) = self.next_operation(i) else {
            return Ok(());
        };
        match &operation {
            Operation::Push(element) => self.machine.begin_push(thread, *element, self.hands)?,
            Operation::Pop => self.machine.begin_pop(thread)?,
        }
        self.begun[i] += operation.byte_count();
        Ok(())
    }

    // A schedule entry: an idle thread begins its next operation or rests, a done one is collected, and
    // any other is stepped.
    fn move_thread(&mut self, thread: u8) -> Result<(), Refusal>
        ensures keeps { Keeps self.old self.new }
        ensures answer { (result, world_of B.Bank.row self.new, self.new.begun) ≡ moved E.Element.format B.Bank.CYCLE (contents_of self.old.run.now) (world_of B.Bank.row self.old) self.old.begun thread }
    {
        match self.machine.phase(thread)? {
            Phase::Idle => self.begin_next(thread)?,
            Phase::Done(_, _) => {
                self.machine.collect(thread, &mut *self.hands)?;
            }
            _ => {
                self.machine
                    .step(thread, self.cells, self.hands, self.entries)?;
            }
        }
        Ok(())
    }

    // The entries of a schedule, the first of which has the index `first` in the whole run.
    fn play(&mut self, schedule: &[u8], first: usize) -> Result<(), Fault>
        requires { first + length schedule.now < 2 ^ 64 }
        ensures keeps { Keeps self.old self.new }
        ensures answer { (result, world_of B.Bank.row self.new, self.new.begun) ≡ played E.Element.format B.Bank.CYCLE (contents_of self.old.run.now) (world_of B.Bank.row self.old) self.old.begun schedule.now first }
    {
        for (index, &thread) in schedule.iter().enumerate() {
            let place = first + index;
            self.move_thread(thread)
                .map_err(|refusal| refusal.at(place))?;
        }
        Ok(())
    }

    // Both schedules of the run, the lead-in first.
    pub(crate) fn play_both(&mut self) -> Result<(), Fault>
        ensures keeps { Keeps self.old self.new }
        ensures answer { (result, world_of B.Bank.row self.new, self.new.begun) ≡ played E.Element.format B.Bank.CYCLE (contents_of self.old.run.now) (world_of B.Bank.row self.old) self.old.begun (whole_schedule (contents_of self.old.run.now)) 0 }
    {
        let schedule = Schedule {
            lead_in: self.run.lead_in(),
            main: self.run.main(),
        };
        let first = schedule.still_to_run(0);
        self.play(first, 0)?;
        let taken = first.len();
        self.play(schedule.still_to_run(taken), taken)
    }
}
