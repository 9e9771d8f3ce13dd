// Takes: the ticket that a thread gets, and the entries that its take writes.
ghost use Rattle.std.specs.Prelude.{◌≡◌, ◌+◌, ◌<◌, ◌≤◌, length, position};
ghost use Rattle.history.specs.declared.entry.Kind.TheVariants.{Push, Pop};
ghost use Rattle.world.specs.Takes.{awaits_pop, count_of, early_popper, pop_entered, pop_writes, push_entered, push_writes, record_after, table_after, ticket_limit, writes_of};

use history::entry::{Entry, Kind};
use history::pushes::first_push;
use turns::ticket::Ticket;
use world::phase::Phase;
use world::table::Table;

// No count of tickets goes past this.
pub(crate) const TICKET_LIMIT: Ticket = 65_535;

// How many tickets of a kind are handed out, which is the next ticket.
pub(crate) fn count_of(table: &Table, kind: Kind) -> Ticket
    ensures { result ≡ count_of kind table.now }
{
    match kind {
        Kind::Push => table.pushes,
        Kind::Pop => table.pops,
    }
}

// How many entries the next take of a kind writes.
pub(crate) fn writes_of(table: &Table, kind: Kind) -> usize
    ensures { result ≡ writes_of kind table.now }
{
    match kind {
        Kind::Push if table.pushes < table.pops => 2,
        Kind::Push => 1,
        Kind::Pop if table.pops < table.pushes => 1,
        Kind::Pop => 0,
    }
}

// The first of these threads that is at the wait with this pop ticket, if one is.
fn waiting_place(threads: &[Phase], ticket: Ticket) -> Option<usize>
    ensures { result ≡ position (awaits_pop ticket) threads.now }
{
    threads
        .iter()
        .position(|phase| *phase == Phase::Waiting(Kind::Pop, ticket))
}

// The thread of the pop that is entered behind the push that takes now, or 0 where none waits with
// its ticket, which no run comes to: the definition says 0, and an entry has no room for none.
fn early_popper(table: &Table) -> u8
    ensures { result ≡ early_popper table.now }
{
    let count = table.shape.threads() as usize;
    waiting_place(&table.threads[..count], table.pushes).unwrap_or(0) as u8
}

// Enters the push that takes now, with this element. Where the pop of its ticket took before, that
// is entered directly behind. Pushes and pops enter apart, since a push may enter a pop
// and a pop never a push; so each has the room that it needs in its own clause.
fn enter_push<T: Copy>(table: &Table, thread: u8, element: T, entries: &mut [Entry<T>])
    requires room { table.now.used + push_writes table.now ≤ length entries.old }
    ensures { entries.new ≡ push_entered table.now thread entries.old element }
{
    let push = Entry {
        kind: Kind::Push,
        thread,
        ticket: table.pushes,
        element,
    };
    entries[table.used] = push;
    if table.pushes < table.pops {
        entries[table.used + 1] = Entry {
            kind: Kind::Pop,
            thread: early_popper(table),
            ..push
        };
    }
}

// Enters the pop that takes now, with this element in its hand, only where the push of its ticket
// took before: with that push's element, if the record still has it.
fn enter_pop<T: Copy>(table: &Table, thread: u8, hand: T, entries: &mut [Entry<T>])
    requires room { table.now.used + pop_writes table.now ≤ length entries.old }
    ensures { entries.new ≡ pop_entered table.now thread entries.old hand }
{
    let ticket = table.pops;
    if ticket < table.pushes {
        let element = first_push(entries, table.used, ticket).unwrap_or(hand);
        entries[table.used] = Entry {
            kind: Kind::Pop,
            thread,
            ticket,
            element,
        };
    }
}

// A thread takes a ticket of this kind, with what is in its hand. Its callers' facts stand here once; a struct for
// them would be made for this call alone.
pub(crate) fn take<T: Copy>(
    table: &mut Table,
    kind: Kind,
    thread: u8,
    hands: &[T],
    entries: &mut [Entry<T>],
) -> Ticket
    requires within { thread < 64 }
    requires hand { thread < length hands.now }
    requires unspent { count_of kind table.old < ticket_limit }
    requires room { table.old.used + writes_of kind table.old ≤ length entries.old }
    ensures ticket { result ≡ count_of kind table.old }
    ensures table { table.new ≡ table_after kind table.old thread }
    ensures entries { entries.new ≡ record_after kind table.old thread hands.now entries.old }
{
    let ticket = count_of(table, kind);
    let writes = writes_of(table, kind);
    let hand = hands[thread as usize];
    match kind {
        Kind::Push => {
            enter_push(table, thread, hand, entries);
            table.pushes = ticket + 1;
        }
        Kind::Pop => {
            enter_pop(table, thread, hand, entries);
            table.pops = ticket + 1;
        }
    }
    table.used += writes;
    table.threads[thread as usize] = Phase::Waiting(kind, ticket);
    ticket
}
