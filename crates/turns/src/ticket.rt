// Which slot and round a ticket belongs to, and which turns of its slot it waits for.
ghost use Rattle.std.specs.Prelude.{◌≡◌, ◌<◌};
ghost use Rattle.turns.specs.Tickets.{pop_turn, push_turn, split_of};

use super::shape::Shape;

// The number of a ticket or of a round: this line alone says how wide they are.
pub type Ticket = u16;

// The turn of a slot before a bank's cycle reduces it: wide enough for twice a 32-bit round and one.
pub type Turn = u64;

impl Shape {
    // The slot and the round of a ticket, together.
    pub fn split(&self, ticket: Ticket) -> (usize, Ticket)
        ensures value { result ≡ split_of self.now.slots ticket }
        ensures within { result.0 < self.now.slots }
    {
        let slots = self.slots() as Ticket;
        ((ticket % slots) as usize, ticket / slots)
    }
}

// The turn that the push of a round waits for.
pub fn push_turn(round: Ticket) -> Turn
    ensures { result ≡ push_turn round }
{
    2 * round as Turn
}

// The turn that the pop of a round waits for.
pub fn pop_turn(round: Ticket) -> Turn
    ensures { result ≡ pop_turn round }
{
    push_turn(round) + 1
}
