// What is left when a run ends.
use turns::ticket::Ticket;

// The push and pop tickets that were handed out, and the threads that still wait.
#[derive(Clone, Copy, PartialEq, Eq, Debug)]
pub struct Counts {
    pub pushes: Ticket,
    pub pops: Ticket,
    pub waiting: usize,
}
