// Pushes among the entries of a record.
ghost use Rattle.std.specs.Prelude.{◌≡◌, take};
ghost use Rattle.history.specs.Pushes.{first_push};

use super::entry::{Entry, Kind};
use turns::ticket::Ticket;

// The element of the first push entry of a ticket among the first `used` entries. A count past their end is
// lawful; with the used part in their place each caller would have to show that its count is within.
pub fn first_push<E: Copy>(entries: &[Entry<E>], used: usize, ticket: Ticket) -> Option<E>
    ensures { result ≡ first_push (take used entries.now) ticket }
{
    entries[..used.min(entries.len())]
        .iter()
        .find(|entry| entry.kind == Kind::Push && entry.ticket == ticket)
        .map(|entry| entry.element)
}
