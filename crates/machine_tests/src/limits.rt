// The last ticket, the last free entry, and machines at rest.
use super::bench::{Answer, Buffers, Call, Lent, NO_ENTRY, asked, call_lent, make};
use history::entry::{Entry, Kind};
use machine::state::Machine;
use std::process::Abort;
use std::test::Fail;
use turns::bank::Bank;
use turns::nibble_bank::NibbleBank;
use turns::ticket::Ticket;
use turns::word_bank::WordBank;
use world::cell::{Cell, Mark};
use world::refusal::Refusal;
use world::step::Step;

// Every ticket of both kinds writes one entry.
const ALL_ENTRIES: usize = 131_070;

// One round through a single slot: the pop takes first, so that its push enters both.
fn round(ticket: Ticket) -> [(Call, Result<Answer, Refusal>); 13] {
    let element = ticket as u32;
    [
        (Call::Pop(1), Ok(Answer::Done)),
        (Call::Step(1), Ok(Answer::Stepped(Step::Took, ticket))),
        (Call::Push(0, element), Ok(Answer::Done)),
        (Call::Step(0), Ok(Answer::Stepped(Step::Took, ticket))),
        (Call::Step(0), Ok(Answer::Stepped(Step::Passed, ticket))),
        (Call::Step(0), Ok(Answer::Stepped(Step::Stored, ticket))),
        (Call::Step(0), Ok(Answer::Stepped(Step::Completed, ticket))),
        (
            Call::Collect(0),
            Ok(Answer::Collected(Kind::Push, ticket, element)),
        ),
        (Call::Step(1), Ok(Answer::Stepped(Step::Passed, ticket))),
        (Call::Step(1), Ok(Answer::Stepped(Step::Read, ticket))),
        (Call::Step(1), Ok(Answer::Stepped(Step::Emptied, ticket))),
        (Call::Step(1), Ok(Answer::Stepped(Step::Completed, ticket))),
        (
            Call::Collect(1),
            Ok(Answer::Collected(Kind::Pop, ticket, element)),
        ),
    ]
}

// Hands out all tickets up to the last, 65,534, and lets both threads begin once more. The record of so many
// entries is on the heap, so these buffers are no `Buffers`.
fn hand_out<B: Bank>(
    rt: &impl Abort,
    machine: &mut Machine<B>,
    cells: &mut [Cell<u32>],
    hands: &mut [u32],
    entries: &mut [Entry<u32>],
) {
    assert_eq!(rt;
        make(machine, Call::Open(1, 2), cells, hands, entries),
        Ok(Answer::Done)
    );
    for ticket in 0..65_535 {
        for (call, answer) in round(ticket) {
            assert_eq!(rt; make(machine, call, cells, hands, entries), answer);
        }
    }
    assert_eq!(rt;
        make(machine, Call::Push(0, 7), cells, hands, entries),
        Ok(Answer::Done)
    );
    assert_eq!(rt;
        make(machine, Call::Pop(1), cells, hands, entries),
        Ok(Answer::Done)
    );
}

// A take of either kind is spent, which is told before the record's being full.
fn is_spent<B: Bank>(
    rt: &impl Abort,
    machine: &mut Machine<B>,
    cells: &mut [Cell<u32>],
    hands: &mut [u32],
    entries: &mut [Entry<u32>],
) {
    let told = asked(machine);
    assert_eq!(rt; told.counts, (65_535, 65_535));
    assert_eq!(rt; told.used, ALL_ENTRIES);
    for thread in [0, 1] {
        let answer = make(machine, Call::Step(thread), cells, hands, entries);
        assert_eq!(rt; answer, Err(Refusal::Spent));
        assert_eq!(rt; asked(machine), told);
    }
}

// The entries are those of the rounds, push before pop.
fn holds_rounds(rt: &impl Abort, entries: &[Entry<u32>]) {
    for (i, entry) in entries.iter().enumerate() {
        let ticket = (i / 2 % 65_536) as Ticket;
        let expected = Entry {
            kind: if i % 2 == 0 { Kind::Push } else { Kind::Pop },
            thread: (i % 2) as u8,
            ticket,
            element: ticket as u32,
        };
        assert_eq!(rt; *entry, expected);
    }
}

fn spends_all<B: Bank + Drop>(rt: &impl Abort, bank: B, entries: &mut [Entry<u32>]) {
    let mut machine = Machine::new(bank);
    let mut cells = [Cell {
        element: 90,
        mark: Mark::Full,
    }];
    let mut hands = [80, 81];
    hand_out(rt, &mut machine, &mut cells, &mut hands, entries);
    is_spent(rt, &mut machine, &mut cells, &mut hands, entries);
    assert_eq!(rt; hands, [7, 65_534]);
    assert_eq!(rt; cells[0].element, 65_534);
    assert_eq!(rt; cells[0].mark, Mark::Empty);
    holds_rounds(rt, entries);
}

// Each bank has a test by its own name, over what is generic.
#[test]
fn word_bank_spends_all(rt: HostRuntime) -> Result<(), Fail> {
    let mut entries = vec![in rt.alloc(); NO_ENTRY; ALL_ENTRIES]?;
    spends_all(&rt, WordBank::new(), &mut entries);
    Ok(())
}

#[test]
fn nibble_bank_spends_all(rt: HostRuntime) -> Result<(), Fail> {
    let mut entries = vec![in rt.alloc(); NO_ENTRY; ALL_ENTRIES]?;
    spends_all(&rt, NibbleBank::new(), &mut entries);
    Ok(())
}

// With one entry free, a push takes where its pop has not taken; where it has, two entries would be
// written, and the take is refused.
fn last_entry<B: Bank + Drop>(rt: &impl Abort, bank: B) {
    let one = Lent(1, 3, 1);
    let mut machine = Machine::new(bank);
    let mut buffers = Buffers::new();
    for line in [
        Call::Open(1, 3),
        Call::Pop(1),
        Call::Push(0, 7),
        Call::Push(2, 8),
    ] {
        assert_eq!(rt;
            call_lent(&mut machine, line, one, &mut buffers),
            Ok(Answer::Done)
        );
    }
    assert_eq!(rt;
        call_lent(&mut machine, Call::Step(0), one, &mut buffers),
        Ok(Answer::Stepped(Step::Took, 0))
    );
    assert_eq!(rt; machine.used(), 1);
    // a pop whose push took is entered, so no entry is free for it
    assert_eq!(rt;
        call_lent(&mut machine, Call::Step(1), one, &mut buffers),
        Err(Refusal::RecordFull)
    );
    assert_eq!(rt;
        call_lent(&mut machine, Call::Step(1), Lent(1, 3, 2), &mut buffers),
        Ok(Answer::Stepped(Step::Took, 0))
    );
    assert_eq!(rt;
        call_lent(&mut machine, Call::Step(2), Lent(1, 3, 2), &mut buffers),
        Err(Refusal::RecordFull)
    );
    assert_eq!(rt;
        call_lent(&mut machine, Call::Step(2), Lent(1, 3, 3), &mut buffers),
        Ok(Answer::Stepped(Step::Took, 1))
    );
    // the pop took first
    for line in [Call::Open(1, 3), Call::Pop(1), Call::Push(0, 7)] {
        assert_eq!(rt;
            call_lent(&mut machine, line, one, &mut buffers),
            Ok(Answer::Done)
        );
    }
    assert_eq!(rt;
        call_lent(&mut machine, Call::Step(1), one, &mut buffers),
        Ok(Answer::Stepped(Step::Took, 0))
    );
    assert_eq!(rt; machine.used(), 0);
    assert_eq!(rt;
        call_lent(&mut machine, Call::Step(0), one, &mut buffers),
        Err(Refusal::RecordFull)
    );
    assert_eq!(rt;
        call_lent(&mut machine, Call::Step(0), Lent(1, 3, 2), &mut buffers),
        Ok(Answer::Stepped(Step::Took, 0))
    );
    assert_eq!(rt; machine.used(), 2);
}

#[test]
fn last_entry_on_both_banks(rt: HostRuntime) {
    last_entry(&rt, WordBank::new());
    last_entry(&rt, NibbleBank::new());
}

// Steps every thread until the machine is at rest, at most so often.
fn settle<B: Bank>(rt: &impl Abort, machine: &mut Machine<B>, lent: Lent, buffers: &mut Buffers) {
    for _ in 0..8 {
        for thread in 0..3 {
            let _ = call_lent(machine, Call::Step(thread), lent, buffers);
        }
    }
    assert!(rt; machine.at_rest());
}

// Three pushes and no pop at one slot: two wait. Two pops and no push at two slots: both wait.
fn waits_at_rest<B: Bank + Drop>(rt: &impl Abort, bank: B) {
    let mut machine = Machine::new(bank);
    let mut buffers = Buffers::new();
    assert_eq!(rt; asked(&machine).shape, (1, 1));
    assert!(rt; machine.at_rest());
    for line in [
        Call::Open(1, 3),
        Call::Push(0, 7),
        Call::Push(1, 8),
        Call::Push(2, 9),
    ] {
        assert_eq!(rt;
            call_lent(&mut machine, line, Lent(1, 3, 6), &mut buffers),
            Ok(Answer::Done)
        );
    }
    assert!(rt; !machine.at_rest());
    settle(rt, &mut machine, Lent(1, 3, 6), &mut buffers);
    assert_eq!(rt; machine.waiting(), 2);
    for line in [Call::Open(2, 3), Call::Pop(0), Call::Pop(1)] {
        assert_eq!(rt;
            call_lent(&mut machine, line, Lent(2, 3, 6), &mut buffers),
            Ok(Answer::Done)
        );
    }
    assert!(rt; !machine.at_rest());
    settle(rt, &mut machine, Lent(2, 3, 6), &mut buffers);
    assert_eq!(rt; machine.waiting(), 2);
    assert_eq!(rt; machine.used(), 0);
}

#[test]
fn waits_at_rest_on_both_banks(rt: HostRuntime) {
    waits_at_rest(&rt, WordBank::new());
    waits_at_rest(&rt, NibbleBank::new());
}
