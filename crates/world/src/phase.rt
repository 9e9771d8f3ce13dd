// What a thread is about to do.
use history::entry::Kind;
use turns::ticket::Ticket;

// A push stores and completes; a pop reads, empties and completes. From its take on, an operation has its ticket.
#[derive(Clone, Copy, PartialEq, Eq, Debug)]
pub enum Phase {
    Idle,
    Taking(Kind),
    Waiting(Kind, Ticket),
    Storing(Ticket),
    Reading(Ticket),
    Emptying(Ticket),
    Completing(Kind, Ticket),
    Done(Kind, Ticket),
}
