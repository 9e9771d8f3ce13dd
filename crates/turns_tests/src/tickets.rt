// Shapes, tickets and turns on worked numbers.
use faults::numbered::Numbered;
use std::test::Fail;
use turns::bank::{Bank, reduced};
use turns::nibble_bank::NibbleBank;
use turns::refusal::ShapeRefusal;
use turns::shape::Shape;
use turns::ticket::{Ticket, Turn, pop_turn, push_turn};
use turns::word_bank::WordBank;

// A ticket among so many slots: its slot and round, the turns of its push and its pop, and both as
// the nibble bank keeps them.
#[derive(Clone, Copy)]
struct Worked {
    slots: u8,
    ticket: Ticket,
    slot: usize,
    round: Ticket,
    turns: (Turn, Turn),
    kept: (Turn, Turn),
}

const WORKED: [Worked; 4] = [
    Worked {
        slots: 1,
        ticket: 0,
        slot: 0,
        round: 0,
        turns: (0, 1),
        kept: (0, 1),
    },
    Worked {
        slots: 3,
        ticket: 7,
        slot: 1,
        round: 2,
        turns: (4, 5),
        kept: (4, 5),
    },
    Worked {
        slots: 64,
        ticket: 65534,
        slot: 62,
        round: 1023,
        turns: (2046, 2047),
        kept: (14, 15),
    },
    Worked {
        slots: 1,
        ticket: 65534,
        slot: 0,
        round: 65534,
        turns: (131068, 131069),
        kept: (12, 13),
    },
];

#[test]
fn tickets_have_slots_and_turns(rt: HostRuntime) -> Result<(), Fail> {
    for row in WORKED {
        let shape = Shape::new(row.slots, 1)?;
        let (slot, round) = shape.split(row.ticket);
        assert_eq!(rt; slot, row.slot);
        assert_eq!(rt; round, row.round);
        let turns = (push_turn(round), pop_turn(round));
        assert_eq!(rt; turns.0, row.turns.0);
        assert_eq!(rt; turns.1, row.turns.1);
        assert_eq!(rt; reduced::<NibbleBank>(turns.0), row.kept.0);
        assert_eq!(rt; reduced::<NibbleBank>(turns.1), row.kept.1);
        assert_eq!(rt; reduced::<WordBank>(turns.0), row.turns.0);
        assert_eq!(rt; reduced::<WordBank>(turns.1), row.turns.1);
    }
    Ok(())
}

// Numbers of slots and threads, and whether they make a shape.
const SHAPES: [(u8, u8, bool); 8] = [
    (1, 1, true),
    (64, 64, true),
    (7, 9, true),
    (0, 1, false),
    (1, 0, false),
    (65, 64, false),
    (64, 65, false),
    (255, 255, false),
];

#[test]
fn only_few_make_a_shape(rt: HostRuntime) {
    for (slots, threads, made) in SHAPES {
        let shape = Shape::new(slots, threads).map(|shape| (shape.slots(), shape.threads()));
        let expected = if made {
            Ok((slots, threads))
        } else {
            Err(ShapeRefusal::BadShape)
        };
        assert_eq!(rt; shape, expected);
    }
    assert_eq!(rt; ShapeRefusal::BadShape.number(), 9);
}
