// Playing a run: its schedule entries one after another, up to the first refusal.
ghost use Rattle.std.specs.Prelude.{◌≡◌, OnOk};
ghost use Rattle.runfile.specs.Files.{contents_of};
ghost use Rattle.world.specs.Calls.{new_world};
ghost use Rattle.world.specs.Worlds.{world};
ghost use Rattle.play.specs.Runs.{Reached, ended, ran};

use super::fault::Fault;
use super::player::Player;
use faults::numbered::Numbered;
use history::entry::Entry;
use machine::state::Machine;
use runfile::element::Element;
use runfile::runs::RunFile;
use turns::bank::Bank;
use turns::shape::Shape;
use world::cell::Cell;

// Opens the machine with a shape, which need not be the file's, and plays the whole run on it. Where nothing is refused, the world at
// the end is reached by a run of calls from a newly opened machine, and the record's law is true of it. Cells, hands and
// record are lent one by one, as the machine's calls take them.
pub fn play_run<B: Bank, E: Element>(
    machine: &mut Machine<B>,
    run: &RunFile,
    shape: Shape,
    cells: &mut [Cell<E>],
    hands: &mut [E],
    entries: &mut [Entry<E>],
) -> Result<(), Fault>
    ensures answer { (result, world (B.Bank.row machine.new.bank) machine.new.table cells.new hands.new entries.new) ≡ ended (ran E.Element.format B.Bank.CYCLE (contents_of run.now) shape (world (B.Bank.row machine.old.bank) machine.old.table cells.old hands.old entries.old)) }
    ensures reached { OnOk result (Reached B.Bank.CYCLE (new_world shape cells.old hands.old entries.old) (world (B.Bank.row machine.new.bank) machine.new.table cells.new hands.new entries.new)) }
{
    machine.open(shape, cells).map_err(|refusal| refusal.at(0))?;
    let mut player = Player::new(machine, run, cells, hands, entries);
    player.play_both()
}
