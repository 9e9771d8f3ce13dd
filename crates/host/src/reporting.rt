// A run and its report.
ghost use Rattle.std.specs.Prelude.{length, take, IfOk};
ghost use Rattle.turns.specs.Rows.{cleared};
ghost use Rattle.turns.specs.Shapes.{Few};
ghost use Rattle.runfile.specs.Files.{contents_of};
ghost use Rattle.world.specs.Calls.{new_table};
ghost use Rattle.world.specs.Worlds.{world};
ghost use Rattle.play.specs.Runs.{ran};
ghost use Rattle.host.specs.Buffers.{BuffersFit};
ghost use Rattle.host.specs.Tells.{Faithful, Writes, cycle_of, shape_of, told_as, told_run};

use super::fault::Fault;
use history::entry::{Entry, Kind};
use machine::state::Machine;
use play::playing::play_run;
use report::counts::Counts;
use report::whole::write_report;
use runfile::element::Element;
use runfile::kinds::BankKind;
use runfile::runs::RunFile;
use turns::bank::{Bank, SLOTS};
use turns::nibble_bank::NibbleBank;
use turns::shape::Shape;
use turns::word_bank::WordBank;
use world::cell::{Cell, Mark};

// How many entries the record of a run has.
const RECORD_LENGTH: usize = 2048;

// Plays a run in these buffers, which the machine's calls take one by one, and writes its report to the start
// of the area.
fn report_run<B: Bank + Drop, E: Element>(
    bank: B,
    run: &RunFile,
    shape: Shape,
    cells: &mut [Cell<E>],
    hands: &mut [E],
    entries: &mut [Entry<E>],
    area: &mut [u8],
) -> Result<usize, Fault>
    ensures writes { Writes result area.old area.new (told_run E.Element.printed shape (length area.old) (ran E.Element.format B.Bank.CYCLE (contents_of run.now) shape (world cleared (new_table shape) cells.old hands.old entries.old))) }
    ensures faithful { IfOk result (λ size. Faithful E.Element.printed B.Bank.CYCLE shape (take size area.new)) }
{
    let mut machine = Machine::new(bank);
    play_run(&mut machine, run, shape, cells, hands, entries).map_err(Fault::Machine)?;
    let counts = Counts {
        pushes: machine.pushes(),
        pops: machine.pops(),
        waiting: machine.waiting() as usize,
    };
    write_report(area, &shape, entries, machine.used(), counts).map_err(Fault::Report)
}

// The same over the file's kind of bank, in buffers that hold a blank element everywhere before anything is
// pushed: cells and hands for the file's shape, and a record of fixed length.
pub(crate) fn report_file<E: Element>(
    blank: E,
    run: &RunFile,
    area: &mut [u8],
) -> Result<usize, Fault>
    requires few { Few run.now.header.slots × Few run.now.header.threads }
    requires fit { BuffersFit E.row }
    ensures writes { Writes result area.old area.new (told_as E.Element.format E.Element.printed blank (length area.old) (contents_of run.now)) }
    ensures faithful { IfOk result (λ size. Faithful E.Element.printed (cycle_of run.now.header.bank) (shape_of (contents_of run.now)) (take size area.new)) }
{
    // The header of a file that was read has a shape.
    let shape = run.header.shape().unwrap();
    let mut cells = [Cell {
        element: blank,
        mark: Mark::Empty,
    }; SLOTS];
    let mut hands = [blank; SLOTS];
    let mut entries = [Entry {
        kind: Kind::Push,
        thread: 0,
        ticket: 0,
        element: blank,
    }; RECORD_LENGTH];
    let cells = &mut cells[..shape.slots() as usize];
    let hands = &mut hands[..shape.threads() as usize];
    let entries = &mut entries;
    // Each arm is at its own type of bank, for which a closure has no parameter.
    match run.header.bank {
        BankKind::Word => report_run(WordBank::new(), run, shape, cells, hands, entries, area),
        BankKind::Nibble => report_run(NibbleBank::new(), run, shape, cells, hands, entries, area),
    }
}
