// A schedule: one thread number a byte.
ghost use Rattle.std.specs.Prelude.{◌≡◌, ◌+◌, ◌≤◌, length, nat_le};
ghost use Rattle.std.specs.List.{position};
ghost use Rattle.runfile.specs.Schedules.{scheduled};

use super::fault::{Fault, FileRefusal};
use faults::numbered::Numbered;

// Where a schedule first names a thread that the run does not have.
fn first_absent(schedule: &[u8], threads: u8) -> Option<usize>
    ensures { result ≡ position (λ t. nat_le threads t) schedule.now }
{
    schedule.iter().position(|thread| *thread >= threads)
}

// Refuses a schedule at its first thread that the run does not have. Bytes and place are two parameters, as a struct of
// both would be made for this call alone, with the same fact to show.
pub(crate) fn check_schedule(schedule: &[u8], threads: u8, place: usize) -> Result<(), Fault>
    requires { place + length schedule.now ≤ 49152 }
    ensures { result ≡ scheduled threads schedule.now place }
{
    // A match, since each case is an answer of its own.
    match first_absent(schedule, threads) {
        Some(index) => Err(FileRefusal::Body.at(place + index)),
        None => Ok(()),
    }
}
