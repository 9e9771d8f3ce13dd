// Entries of a record.
use turns::ticket::Ticket;

#[derive(Clone, Copy, PartialEq, Eq, Debug)]
pub enum Kind {
    Push,
    Pop,
}

// What took effect, by which thread, with which ticket, and the element that went in or came out.
#[derive(Clone, Copy, PartialEq, Eq, Debug)]
pub struct Entry<E> {
    pub kind: Kind,
    pub thread: u8,
    pub ticket: Ticket,
    pub element: E,
}
