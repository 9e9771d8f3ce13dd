// One damaged file for each check and each rule of places.
use super::files::{LETTERS, NUMBERS};
use faults::numbered::Numbered;
use runfile::file::read_run;
use std::process::Abort;
use std::test::Fail;

// A file: the first `length` bytes of a lawful one (followed by zeros), with some bytes changed. What is expected is the
// number that users are told, so it is a number here.
struct Damage {
    name: &'static str,
    length: usize,
    changes: &'static [(usize, u8)],
    number: u8,
    place: usize,
}

const NUMBERS_DAMAGE: [Damage; 37] = [
    Damage {
        name: "empty",
        length: 0,
        changes: &[],
        number: 10,
        place: 0,
    },
    Damage {
        name: "no entries counted",
        length: 50,
        changes: &[(0, 0)],
        number: 11,
        place: 0,
    },
    Damage {
        name: "three entries counted",
        length: 50,
        changes: &[(0, 3)],
        number: 11,
        place: 0,
    },
    Damage {
        name: "68 entries counted",
        length: 50,
        changes: &[(0, 68)],
        number: 11,
        place: 0,
    },
    Damage {
        name: "a wrong count before a table that is cut",
        length: 1,
        changes: &[(0, 68)],
        number: 11,
        place: 0,
    },
    Damage {
        name: "the count alone",
        length: 1,
        changes: &[],
        number: 10,
        place: 1,
    },
    Damage {
        name: "table cut in its first entry",
        length: 4,
        changes: &[],
        number: 10,
        place: 4,
    },
    Damage {
        name: "table cut before its last byte",
        length: 25,
        changes: &[],
        number: 10,
        place: 25,
    },
    Damage {
        name: "67 entries counted and 5 there",
        length: 50,
        changes: &[(0, 67)],
        number: 10,
        place: 50,
    },
    Damage {
        name: "a cut table before a wrong entry",
        length: 25,
        changes: &[(1, 9)],
        number: 10,
        place: 25,
    },
    Damage {
        name: "first entry no shape",
        length: 50,
        changes: &[(1, 2)],
        number: 11,
        place: 1,
    },
    Damage {
        name: "shape of five bytes",
        length: 50,
        changes: &[(5, 5)],
        number: 11,
        place: 1,
    },
    Damage {
        name: "shape of 2^24 + 4 bytes",
        length: 50,
        changes: &[(2, 1)],
        number: 11,
        place: 1,
    },
    Damage {
        name: "second entry a lead-in",
        length: 50,
        changes: &[(6, 3)],
        number: 11,
        place: 6,
    },
    Damage {
        name: "third entry a shape",
        length: 50,
        changes: &[(11, 1)],
        number: 11,
        place: 11,
    },
    Damage {
        name: "fourth entry a program",
        length: 50,
        changes: &[(16, 2)],
        number: 11,
        place: 16,
    },
    Damage {
        name: "schedules exchanged",
        length: 50,
        changes: &[(16, 4), (21, 3)],
        number: 11,
        place: 16,
    },
    Damage {
        name: "last entry a lead-in",
        length: 50,
        changes: &[(21, 3)],
        number: 11,
        place: 21,
    },
    Damage {
        name: "the first of two wrong entries",
        length: 50,
        changes: &[(21, 9), (11, 9)],
        number: 11,
        place: 11,
    },
    Damage {
        name: "a wrong entry before missing bodies",
        length: 26,
        changes: &[(21, 9)],
        number: 11,
        place: 21,
    },
    Damage {
        name: "no bodies",
        length: 26,
        changes: &[],
        number: 10,
        place: 26,
    },
    Damage {
        name: "last byte missing",
        length: 49,
        changes: &[],
        number: 10,
        place: 49,
    },
    Damage {
        name: "lengths whose sum wraps at 32 bits",
        length: 50,
        changes: &[(7, 255), (8, 255), (9, 255), (10, 255), (15, 7)],
        number: 10,
        place: 50,
    },
    Damage {
        name: "one byte too many",
        length: 51,
        changes: &[],
        number: 13,
        place: 50,
    },
    Damage {
        name: "a main schedule one shorter",
        length: 50,
        changes: &[(25, 11)],
        number: 13,
        place: 49,
    },
    Damage {
        name: "a tail before a wrong shape",
        length: 51,
        changes: &[(26, 0)],
        number: 13,
        place: 50,
    },
    Damage {
        name: "no slots",
        length: 50,
        changes: &[(26, 0)],
        number: 12,
        place: 26,
    },
    Damage {
        name: "65 slots, and a wrong bank",
        length: 50,
        changes: &[(26, 65), (29, 9)],
        number: 12,
        place: 26,
    },
    Damage {
        name: "a thread less than programs",
        length: 50,
        changes: &[(27, 1)],
        number: 12,
        place: 27,
    },
    Damage {
        name: "a thread more than programs, and a wrong element kind",
        length: 50,
        changes: &[(27, 3), (28, 0)],
        number: 12,
        place: 27,
    },
    Damage {
        name: "element kind 0",
        length: 50,
        changes: &[(28, 0)],
        number: 12,
        place: 28,
    },
    Damage {
        name: "element kind 3, and bank 3",
        length: 50,
        changes: &[(28, 3), (29, 3)],
        number: 12,
        place: 28,
    },
    Damage {
        name: "bank 0, and a wrong operation",
        length: 50,
        changes: &[(29, 0), (30, 0)],
        number: 12,
        place: 29,
    },
    Damage {
        name: "an unknown operation",
        length: 50,
        changes: &[(35, 0x45)],
        number: 12,
        place: 35,
    },
    Damage {
        name: "a push that its body's end cuts",
        length: 50,
        changes: &[(10, 4), (15, 2)],
        number: 12,
        place: 30,
    },
    Damage {
        name: "a wrong operation before a wrong schedule",
        length: 50,
        changes: &[(36, 2), (35, 0)],
        number: 12,
        place: 35,
    },
    Damage {
        name: "a thread of n in the lead-in and in the main schedule",
        length: 50,
        changes: &[(49, 2), (37, 2)],
        number: 12,
        place: 37,
    },
];

const LETTERS_DAMAGE: [Damage; 5] = [
    Damage {
        name: "a tone of 2",
        length: 34,
        changes: &[(28, 2)],
        number: 12,
        place: 26,
    },
    Damage {
        name: "a letter cut by one byte",
        length: 33,
        changes: &[(10, 7), (32, 0)],
        number: 12,
        place: 26,
    },
    Damage {
        name: "a wrong first operation",
        length: 34,
        changes: &[(25, 0)],
        number: 12,
        place: 25,
    },
    Damage {
        name: "bank 3",
        length: 34,
        changes: &[(24, 3)],
        number: 12,
        place: 24,
    },
    Damage {
        name: "a thread of 1 in the main schedule",
        length: 34,
        changes: &[(33, 1)],
        number: 12,
        place: 33,
    },
];

fn apply(area: &mut [u8], base: &[u8], changes: &[(usize, u8)]) {
    let length = base.len().min(area.len());
    area[..length].copy_from_slice(&base[..length]);
    for (place, byte) in changes {
        if let Some(slot) = area.get_mut(*place) {
            *slot = *byte;
        }
    }
}

fn refused(rt: &impl Abort, base: &[u8], damage: &Damage) -> Result<(), Fail> {
    let mut buffer = [0; 64];
    let area = &mut buffer[0..64];
    apply(area, base, damage.changes);
    let name = damage.name;
    assert!(rt; damage.length <= 64, "{name}");
    let fault = read_run(&area[0..damage.length]).err().ok_or(name)?;
    assert_eq!(rt; fault.refusal.number(), damage.number, "{name}");
    assert_eq!(rt; fault.place, damage.place, "{name}");
    Ok(())
}

fn all_refused(rt: &impl Abort, base: &[u8], damages: &[Damage]) -> Result<(), Fail> {
    for damage in damages {
        refused(rt, base, damage)?;
    }
    Ok(())
}

#[test]
fn damaged_files_of_numbers(rt: HostRuntime) -> Result<(), Fail> {
    all_refused(&rt, &NUMBERS, &NUMBERS_DAMAGE)
}

#[test]
fn damaged_files_of_letters(rt: HostRuntime) -> Result<(), Fail> {
    all_refused(&rt, &LETTERS, &LETTERS_DAMAGE)
}

#[test]
fn too_long(rt: HostRuntime) -> Result<(), Fail> {
    let file = [0; 49153];
    let fault = read_run(&file).err().ok_or("accepted")?;
    assert_eq!(rt; fault.refusal.number(), 13);
    assert_eq!(rt; fault.place, 49152);
    Ok(())
}
