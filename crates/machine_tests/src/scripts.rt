// Scripts, call by call: what a step answers, when an entry is made and when a cell is full.
use super::bench::{Answer, Buffers, Call, Lent, call_lent};
use history::entry::{Entry, Kind};
use machine::state::Machine;
use std::process::Abort;
use turns::bank::Bank;
use turns::nibble_bank::NibbleBank;
use turns::ticket::Ticket;
use turns::word_bank::WordBank;
use world::refusal::Refusal;
use world::step::Step;

// A call and its answer, with the used entries and the full cells afterwards.
#[derive(Clone, Copy)]
struct Line(Call, Result<Answer, Refusal>, usize, usize);

// A push and then a pop through one slot. The push is entered at its take and not at its store, the
// pop at its own take since its ticket is out, and the cell is full until the emptying step.
const PUSH_THEN_POP: [Line; 15] = [
    Line(Call::Open(1, 2), Ok(Answer::Done), 0, 2),
    Line(Call::Push(0, 7), Ok(Answer::Done), 0, 2),
    Line(Call::Step(0), Ok(Answer::Stepped(Step::Took, 0)), 1, 2),
    Line(Call::Step(0), Ok(Answer::Stepped(Step::Passed, 0)), 1, 2),
    Line(Call::Step(0), Ok(Answer::Stepped(Step::Stored, 0)), 1, 3),
    Line(Call::Step(0), Ok(Answer::Stepped(Step::Completed, 0)), 1, 3),
    Line(
        Call::Collect(0),
        Ok(Answer::Collected(Kind::Push, 0, 7)),
        1,
        3,
    ),
    Line(Call::Pop(1), Ok(Answer::Done), 1, 3),
    Line(Call::Step(1), Ok(Answer::Stepped(Step::Took, 0)), 2, 3),
    Line(Call::Step(1), Ok(Answer::Stepped(Step::Passed, 0)), 2, 3),
    Line(Call::Step(1), Ok(Answer::Stepped(Step::Read, 0)), 2, 3),
    Line(Call::Step(1), Ok(Answer::Stepped(Step::Emptied, 0)), 2, 2),
    Line(Call::Step(1), Ok(Answer::Stepped(Step::Completed, 0)), 2, 2),
    Line(
        Call::Collect(1),
        Ok(Answer::Collected(Kind::Pop, 0, 7)),
        2,
        2,
    ),
    Line(Call::Step(1), Err(Refusal::NoWork), 2, 2),
];

// Two pops take before any push: neither is entered at its take. Each is entered directly behind the
// push of its ticket, by that push's take, with the waiting thread and the push's element.
const POPS_FIRST: [Line; 19] = [
    Line(Call::Open(2, 4), Ok(Answer::Done), 0, 1),
    Line(Call::Pop(3), Ok(Answer::Done), 0, 1),
    Line(Call::Step(3), Ok(Answer::Stepped(Step::Took, 0)), 0, 1),
    Line(Call::Pop(1), Ok(Answer::Done), 0, 1),
    Line(Call::Step(1), Ok(Answer::Stepped(Step::Took, 1)), 0, 1),
    Line(Call::Step(3), Ok(Answer::Stepped(Step::Waited, 0)), 0, 1),
    Line(Call::Push(0, 7), Ok(Answer::Done), 0, 1),
    Line(Call::Step(0), Ok(Answer::Stepped(Step::Took, 0)), 2, 1),
    Line(Call::Push(2, 8), Ok(Answer::Done), 2, 1),
    Line(Call::Step(2), Ok(Answer::Stepped(Step::Took, 1)), 4, 1),
    Line(Call::Step(3), Ok(Answer::Stepped(Step::Waited, 0)), 4, 1),
    Line(Call::Step(0), Ok(Answer::Stepped(Step::Passed, 0)), 4, 1),
    Line(Call::Step(0), Ok(Answer::Stepped(Step::Stored, 0)), 4, 2),
    Line(Call::Step(0), Ok(Answer::Stepped(Step::Completed, 0)), 4, 2),
    Line(Call::Step(3), Ok(Answer::Stepped(Step::Passed, 0)), 4, 2),
    Line(Call::Step(3), Ok(Answer::Stepped(Step::Read, 0)), 4, 2),
    Line(Call::Step(3), Ok(Answer::Stepped(Step::Emptied, 0)), 4, 1),
    Line(Call::Step(3), Ok(Answer::Stepped(Step::Completed, 0)), 4, 1),
    Line(
        Call::Collect(3),
        Ok(Answer::Collected(Kind::Pop, 0, 7)),
        4,
        1,
    ),
];

// Two pushes whose stores come in the other order: the first pop gives the first push's element.
const STORES_CROSSED: [Line; 20] = [
    Line(Call::Open(2, 3), Ok(Answer::Done), 0, 1),
    Line(Call::Push(0, 7), Ok(Answer::Done), 0, 1),
    Line(Call::Step(0), Ok(Answer::Stepped(Step::Took, 0)), 1, 1),
    Line(Call::Push(1, 8), Ok(Answer::Done), 1, 1),
    Line(Call::Step(1), Ok(Answer::Stepped(Step::Took, 1)), 2, 1),
    Line(Call::Step(1), Ok(Answer::Stepped(Step::Passed, 1)), 2, 1),
    Line(Call::Step(1), Ok(Answer::Stepped(Step::Stored, 1)), 2, 2),
    Line(Call::Step(1), Ok(Answer::Stepped(Step::Completed, 1)), 2, 2),
    Line(Call::Step(0), Ok(Answer::Stepped(Step::Passed, 0)), 2, 2),
    Line(Call::Step(0), Ok(Answer::Stepped(Step::Stored, 0)), 2, 3),
    Line(Call::Pop(2), Ok(Answer::Done), 2, 3),
    Line(Call::Step(2), Ok(Answer::Stepped(Step::Took, 0)), 3, 3),
    Line(Call::Step(2), Ok(Answer::Stepped(Step::Waited, 0)), 3, 3),
    Line(Call::Step(0), Ok(Answer::Stepped(Step::Completed, 0)), 3, 3),
    Line(Call::Step(2), Ok(Answer::Stepped(Step::Passed, 0)), 3, 3),
    Line(Call::Step(2), Ok(Answer::Stepped(Step::Read, 0)), 3, 3),
    Line(Call::Step(2), Ok(Answer::Stepped(Step::Emptied, 0)), 3, 2),
    Line(Call::Step(2), Ok(Answer::Stepped(Step::Completed, 0)), 3, 2),
    Line(
        Call::Collect(2),
        Ok(Answer::Collected(Kind::Pop, 0, 7)),
        3,
        2,
    ),
    Line(
        Call::Collect(1),
        Ok(Answer::Collected(Kind::Push, 1, 8)),
        3,
        2,
    ),
];

// Plays a script with as much of the buffers as its opening wants, and compares after each line.
fn play<B: Bank>(
    rt: &impl Abort,
    machine: &mut Machine<B>,
    script: &[Line],
    lent: Lent,
    buffers: &mut Buffers,
) {
    for line in script {
        let Line(call, answer, used, full) = *line;
        assert_eq!(rt; call_lent(machine, call, lent, buffers), answer);
        assert_eq!(rt; machine.used(), used);
        assert_eq!(rt; buffers.full_cells(), full);
    }
}

// The record begins with these entries: kind, thread, ticket and element.
fn begins_with(rt: &impl Abort, buffers: &Buffers, expected: &[(Kind, u8, Ticket, u32)]) {
    for (entry, (kind, thread, ticket, element)) in buffers.entries.iter().zip(expected) {
        assert_eq!(rt;
            *entry,
            Entry {
                kind: *kind,
                thread: *thread,
                ticket: *ticket,
                element: *element,
            }
        );
    }
}

// Plays a script on this bank; the record begins with these entries afterwards.
fn leaves<B: Bank + Drop>(
    rt: &impl Abort,
    bank: B,
    script: &[Line],
    lent: Lent,
    expected: &[(Kind, u8, Ticket, u32)],
) {
    let mut machine = Machine::new(bank);
    let mut buffers = Buffers::new();
    play(rt, &mut machine, script, lent, &mut buffers);
    begins_with(rt, &buffers, expected);
}

fn push_then_pop<B: Bank + Drop>(rt: &impl Abort, bank: B) {
    let expected = [
        (Kind::Push, 0, 0, 7),
        (Kind::Pop, 1, 0, 7),
        (Kind::Pop, 60, 50, 70),
    ];
    leaves(rt, bank, &PUSH_THEN_POP, Lent(1, 2, 4), &expected);
}

fn pops_first<B: Bank + Drop>(rt: &impl Abort, bank: B) {
    let expected = [
        (Kind::Push, 0, 0, 7),
        (Kind::Pop, 3, 0, 7),
        (Kind::Push, 2, 1, 8),
        (Kind::Pop, 1, 1, 8),
        (Kind::Pop, 60, 50, 70),
    ];
    leaves(rt, bank, &POPS_FIRST, Lent(2, 4, 5), &expected);
}

fn stores_crossed<B: Bank + Drop>(rt: &impl Abort, bank: B) {
    let expected = [
        (Kind::Push, 0, 0, 7),
        (Kind::Push, 1, 1, 8),
        (Kind::Pop, 2, 0, 7),
    ];
    leaves(rt, bank, &STORES_CROSSED, Lent(2, 3, 6), &expected);
}

#[test]
fn push_then_pop_on_both_banks(rt: HostRuntime) {
    push_then_pop(&rt, WordBank::new());
    push_then_pop(&rt, NibbleBank::new());
}

#[test]
fn pops_first_on_both_banks(rt: HostRuntime) {
    pops_first(&rt, WordBank::new());
    pops_first(&rt, NibbleBank::new());
}

#[test]
fn stores_crossed_on_both_banks(rt: HostRuntime) {
    stores_crossed(&rt, WordBank::new());
    stores_crossed(&rt, NibbleBank::new());
}
