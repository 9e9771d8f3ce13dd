// A machine with its buffers, and calls of it as lines of a script.
use history::entry::{Entry, Kind};
use machine::state::Machine;
use turns::bank::Bank;
use turns::shape::Shape;
use turns::ticket::Ticket;
use world::cell::{Cell, Mark};
use world::refusal::Refusal;
use world::step::Step;

// A call, by its thread and a push's element; an opening by its slots and threads.
#[derive(Clone, Copy)]
pub enum Call {
    Open(u8, u8),
    Push(u8, u32),
    Pop(u8),
    Step(u8),
    Collect(u8),
}

#[derive(Clone, Copy, PartialEq, Eq, Debug)]
pub enum Answer {
    Done,
    Stepped(Step, Ticket),
    Collected(Kind, Ticket, u32),
}

// What the queries answer, but for the phases.
#[derive(Clone, Copy, PartialEq, Eq, Debug)]
pub struct Told {
    pub shape: (u8, u8),
    pub counts: (Ticket, Ticket),
    pub used: usize,
    pub waiting: u8,
    pub at_rest: bool,
}

pub const CELLS: usize = 3;

pub const HANDS: usize = 5;

pub const ENTRIES: usize = 6;

// An entry of no operation.
pub const NO_ENTRY: Entry<u32> = Entry {
    kind: Kind::Pop,
    thread: 60,
    ticket: 50,
    element: 70,
};

// A machine, its buffers and what a call is lent of them stay three parameters: tests look at each between calls, and
// lend other parts from call to call.
#[derive(Clone, Copy, PartialEq, Eq, Debug)]
pub struct Buffers {
    pub cells: [Cell<u32>; CELLS],
    pub hands: [u32; HANDS],
    pub entries: [Entry<u32>; ENTRIES],
}

// How many cells, hands and entries a call is lent.
#[derive(Clone, Copy)]
pub struct Lent(pub usize, pub usize, pub usize);

impl Buffers {
    // Full cells with elements of no push, and entries of no operation.
    pub(crate) fn new() -> Buffers {
        Buffers {
            cells: [Cell {
                element: 90,
                mark: Mark::Full,
            }; CELLS],
            hands: [80; HANDS],
            entries: [NO_ENTRY; ENTRIES],
        }
    }

    pub(crate) fn full_cells(&self) -> usize {
        self.cells
            .iter()
            .filter(|cell| cell.mark == Mark::Full)
            .count()
    }
}

pub(crate) fn asked<B: Bank>(machine: &Machine<B>) -> Told {
    let shape = machine.shape();
    Told {
        shape: (shape.slots(), shape.threads()),
        counts: (machine.pushes(), machine.pops()),
        used: machine.used(),
        waiting: machine.waiting(),
        at_rest: machine.at_rest(),
    }
}

// Makes a call with the buffers as they are lent, one by one as the calls take them.
pub(crate) fn make<B: Bank>(
    machine: &mut Machine<B>,
    call: Call,
    cells: &mut [Cell<u32>],
    hands: &mut [u32],
    entries: &mut [Entry<u32>],
) -> Result<Answer, Refusal> {
    match call {
        Call::Open(slots, threads) => {
            let shape = Shape::new(slots, threads).map_err(|_| Refusal::BadShape)?;
            machine.open(shape, cells)?;
        }
        Call::Push(thread, element) => machine.begin_push(thread, element, hands)?,
        Call::Pop(thread) => machine.begin_pop(thread)?,
        Call::Step(thread) => {
            let (step, ticket) = machine.step(thread, cells, hands, entries)?;
            return Ok(Answer::Stepped(step, ticket));
        }
        Call::Collect(thread) => {
            let (kind, ticket, element) = machine.collect(thread, hands)?;
            return Ok(Answer::Collected(kind, ticket, element));
        }
    }
    Ok(Answer::Done)
}

// Makes a call with the first so many of each buffer.
pub(crate) fn call_lent<B: Bank>(
    machine: &mut Machine<B>,
    line: Call,
    lent: Lent,
    buffers: &mut Buffers,
) -> Result<Answer, Refusal> {
    let Lent(cells, hands, entries) = lent;
    let cells = cells.min(CELLS);
    let hands = hands.min(HANDS);
    let entries = entries.min(ENTRIES);
    make(
        machine,
        line,
        &mut buffers.cells[0..cells],
        &mut buffers.hands[0..hands],
        &mut buffers.entries[0..entries],
    )
}
