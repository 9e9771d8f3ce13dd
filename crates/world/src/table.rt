// The plain inside of a machine: its shape, its counts, and a row for each thread.
use super::phase::Phase;
use turns::shape::Shape;
use turns::ticket::Ticket;

// How many push and pop tickets are handed out, how many entries of the record are used, and the phase of each thread.
// Rows past the shape's threads stay idle. There is no heap: the rows are an array, and the record is the
// caller's, in memory of a fixed length, so that the count of its used entries is kept here.
#[derive(Clone, Copy)]
pub struct Table {
    pub shape: Shape,
    pub pushes: Ticket,
    pub pops: Ticket,
    pub used: usize,
    pub threads: [Phase; 64],
}
