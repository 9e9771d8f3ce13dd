// Each bank beside a plain array of turns, over some thousand mixed calls.
use std::process::Abort;
use turns::advances::advance_many;
use turns::bank::{Bank, SLOTS};
use turns::nibble_bank::NibbleBank;
use turns::ticket::Turn;
use turns::word_bank::WordBank;

// A run of calls: how many, on how many slots, and one clear among how many.
#[derive(Clone, Copy)]
struct Run {
    calls: u32,
    slots: u32,
    clears: u32,
}

// All slots with two past the last; so few that sixteen turns come round; and often cleared.
const RUNS: [Run; 3] = [
    Run {
        calls: 2000,
        slots: 66,
        clears: 500,
    },
    Run {
        calls: 1500,
        slots: 3,
        clears: 700,
    },
    Run {
        calls: 1000,
        slots: 66,
        clears: 9,
    },
];

// The bank holds the array's turn at each slot and no other, and none past the last slot.
fn agrees<B: Bank>(rt: &impl Abort, bank: &B, turns: &[Turn; SLOTS]) {
    let cycle = B::CYCLE as Turn;
    for (slot, turn) in turns.iter().enumerate() {
        assert!(rt; bank.holds(slot, *turn));
        assert!(rt; !bank.holds(slot, turn.wrapping_add(1) % cycle));
        assert!(rt; !bank.holds(slot, turn.wrapping_add(cycle)));
    }
    assert!(rt; !bank.holds(SLOTS, 0));
    assert!(rt; !bank.holds(SLOTS + 1, 0));
}

// Every run of the table, each call drawn by a linear congruence, the bank compared after each.
fn runs_as_an_array<B: Bank>(rt: &impl Abort, bank: &mut B) {
    let cycle = B::CYCLE as Turn;
    let mut turns = [0; SLOTS];
    agrees(rt, bank, &turns);
    let mut draw: u32 = 1;
    for run in RUNS {
        for _ in 0..run.calls {
            draw = draw.wrapping_mul(1664525).wrapping_add(1013904223);
            let drawn = draw >> 8;
            let slot = (drawn % run.slots) as usize;
            let turn = (drawn % 20) as Turn;
            assert!(rt; bank.holds(slot, turn) == (slot < SLOTS && turns[slot] == turn));
            if drawn % run.clears == 0 {
                bank.clear();
                turns = [0; SLOTS];
            } else {
                bank.advance(slot);
                if slot < SLOTS {
                    turns[slot] = turns[slot].wrapping_add(1) % cycle;
                }
            }
            agrees(rt, bank, &turns);
        }
    }
}

// A cleared bank's slot before, at and after the end of its cycle.
fn goes_round<B: Bank>(rt: &impl Abort, bank: &mut B) {
    let last = B::CYCLE as Turn - 1;
    let mut turns = [0; SLOTS];
    bank.clear();
    advance_many(bank, 5, last);
    for turn in [last, 0, 1] {
        turns[5] = turn;
        agrees(rt, bank, &turns);
        bank.advance(5);
    }
}

// Each bank has tests by its own name, of one line over what is generic.
#[test]
fn word_bank_runs_as_an_array(rt: HostRuntime) {
    let mut bank = WordBank::new();
    runs_as_an_array(&rt, &mut bank);
}

#[test]
fn nibble_bank_runs_as_an_array(rt: HostRuntime) {
    let mut bank = NibbleBank::new();
    runs_as_an_array(&rt, &mut bank);
}

#[test]
fn word_bank_goes_round(rt: HostRuntime) {
    let mut bank = WordBank::new();
    goes_round(&rt, &mut bank);
}

#[test]
fn nibble_bank_goes_round(rt: HostRuntime) {
    let mut bank = NibbleBank::new();
    goes_round(&rt, &mut bank);
}
