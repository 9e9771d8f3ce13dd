// Each refusal, in a machine in which something of every kind is going on: queries and buffers are
// compared before and after.
use super::bench::{Answer, Buffers, Call, Lent, asked, call_lent};
use machine::state::Machine;
use std::process::Abort;
use turns::bank::Bank;
use turns::nibble_bank::NibbleBank;
use turns::word_bank::WordBank;
use world::phase::Phase;
use world::refusal::Refusal;

// Thread 0 is done with push 0, thread 1 waits with pop 0, thread 2 is about to take a push ticket,
// thread 3 is idle. Two entries are used.
const BUSY: [Call; 9] = [
    Call::Open(2, 4),
    Call::Push(0, 7),
    Call::Step(0),
    Call::Step(0),
    Call::Step(0),
    Call::Step(0),
    Call::Pop(1),
    Call::Step(1),
    Call::Push(2, 8),
];

// The buffers that fit.
const FIT: Lent = Lent(2, 4, 4);

// A call, what it is lent, and why it is refused.
#[derive(Clone, Copy)]
struct Case(Call, Lent, Refusal);

// Where two refusals apply, the one with the lower number is told.
const CASES: [Case; 33] = [
    Case(Call::Push(4, 9), FIT, Refusal::Stranger),
    Case(Call::Pop(4), FIT, Refusal::Stranger),
    Case(Call::Step(4), FIT, Refusal::Stranger),
    Case(Call::Collect(4), FIT, Refusal::Stranger),
    Case(Call::Push(255, 9), Lent(2, 3, 4), Refusal::Stranger),
    Case(Call::Step(4), Lent(1, 4, 4), Refusal::Stranger),
    Case(Call::Collect(4), Lent(2, 5, 4), Refusal::Stranger),
    Case(Call::Open(3, 4), FIT, Refusal::Misfit),
    Case(Call::Open(1, 4), FIT, Refusal::Misfit),
    Case(Call::Push(3, 9), Lent(2, 3, 4), Refusal::Misfit),
    Case(Call::Push(3, 9), Lent(2, 5, 4), Refusal::Misfit),
    Case(Call::Push(1, 9), Lent(2, 5, 4), Refusal::Misfit),
    Case(Call::Step(1), Lent(1, 4, 4), Refusal::Misfit),
    Case(Call::Step(1), Lent(3, 4, 4), Refusal::Misfit),
    Case(Call::Step(1), Lent(2, 3, 4), Refusal::Misfit),
    Case(Call::Step(1), Lent(2, 5, 4), Refusal::Misfit),
    Case(Call::Step(1), Lent(2, 4, 1), Refusal::Misfit),
    Case(Call::Step(2), Lent(3, 4, 2), Refusal::Misfit),
    Case(Call::Step(3), Lent(2, 4, 1), Refusal::Misfit),
    Case(Call::Collect(0), Lent(2, 3, 4), Refusal::Misfit),
    Case(Call::Collect(0), Lent(2, 5, 4), Refusal::Misfit),
    Case(Call::Collect(3), Lent(2, 5, 4), Refusal::Misfit),
    Case(Call::Push(0, 9), FIT, Refusal::Busy),
    Case(Call::Push(1, 9), FIT, Refusal::Busy),
    Case(Call::Push(2, 9), FIT, Refusal::Busy),
    Case(Call::Pop(0), FIT, Refusal::Busy),
    Case(Call::Pop(2), FIT, Refusal::Busy),
    Case(Call::Step(0), FIT, Refusal::NoWork),
    Case(Call::Step(3), FIT, Refusal::NoWork),
    Case(Call::Step(2), Lent(2, 4, 2), Refusal::RecordFull),
    Case(Call::Collect(1), FIT, Refusal::Unfinished),
    Case(Call::Collect(2), FIT, Refusal::Unfinished),
    Case(Call::Collect(3), FIT, Refusal::Unfinished),
];

// The nibble bank has 16 turns, so nine threads are too many; that is told before the cells are.
const SHORT: [Case; 3] = [
    Case(Call::Open(2, 9), FIT, Refusal::ShortCycle),
    Case(Call::Open(3, 9), FIT, Refusal::ShortCycle),
    Case(Call::Open(2, 64), FIT, Refusal::ShortCycle),
];

// The phases of the first four threads, idle where a thread is a stranger.
fn phases<B: Bank>(machine: &Machine<B>) -> [Phase; 4] {
    [0, 1, 2, 3].map(|thread| machine.phase(thread).unwrap_or(Phase::Idle))
}

// The call is refused, and queries, phases, cells, hands and record are as before.
fn refused<B: Bank>(rt: &impl Abort, machine: &mut Machine<B>, case: Case, buffers: &mut Buffers) {
    let Case(line, lent, refusal) = case;
    let before = (asked(machine), phases(machine), *buffers);
    assert_eq!(rt; call_lent(machine, line, lent, buffers), Err(refusal));
    assert_eq!(rt; (asked(machine), phases(machine), *buffers), before);
    let (told, _, _) = before;
    assert_eq!(rt; machine.phase(told.shape.1), Err(Refusal::Stranger));
}

// Brings a machine to where the cases begin.
fn set_busy<B: Bank>(rt: &impl Abort, machine: &mut Machine<B>, buffers: &mut Buffers) {
    for line in BUSY {
        let answer = call_lent(machine, line, FIT, buffers);
        assert!(rt; answer.is_ok(), "refused on the way");
    }
    assert_eq!(rt; machine.used(), 2);
}

fn all_refused<B: Bank + Drop>(rt: &impl Abort, bank: B, cases: &[Case]) {
    let mut machine = Machine::new(bank);
    let mut buffers = Buffers::new();
    set_busy(rt, &mut machine, &mut buffers);
    for case in cases {
        refused(rt, &mut machine, *case, &mut buffers);
    }
}

// Each bank has a test by its own name, over what is generic.
#[test]
fn word_bank_refusals(rt: HostRuntime) {
    all_refused(&rt, WordBank::new(), &CASES);
}

#[test]
fn nibble_bank_refusals(rt: HostRuntime) {
    all_refused(&rt, NibbleBank::new(), &CASES);
    all_refused(&rt, NibbleBank::new(), &SHORT);
}

// A cycle of twice the threads is enough: eight for the nibble bank, all 64 for the word bank.
#[test]
fn long_enough_cycles(rt: HostRuntime) {
    let mut buffers = Buffers::new();
    let mut nibbles = Machine::new(NibbleBank::new());
    assert_eq!(rt;
        call_lent(&mut nibbles, Call::Open(2, 8), FIT, &mut buffers),
        Ok(Answer::Done)
    );
    assert_eq!(rt; nibbles.shape().threads(), 8);
    let mut words = Machine::new(WordBank::new());
    assert_eq!(rt;
        call_lent(&mut words, Call::Open(2, 64), FIT, &mut buffers),
        Ok(Answer::Done)
    );
    assert_eq!(rt; words.shape().threads(), 64);
}
