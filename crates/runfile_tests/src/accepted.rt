// Lawful files, and what is read out of them.
use super::files::{LETTERS, NUMBERS};
use listing::lister::list_file;
use runfile::file::{LONGEST, read_run};
use runfile::kinds::{BankKind, ElementKind};
use std::test::Fail;

#[test]
fn parts_of_a_file(rt: HostRuntime) -> Result<(), Fail> {
    let run = read_run(&NUMBERS)?;
    assert_eq!(rt; run.header.slots, 2);
    assert_eq!(rt; run.header.threads, 2);
    assert_eq!(rt; run.header.element, ElementKind::Number);
    assert_eq!(rt; run.header.bank, BankKind::Word);
    assert_eq!(rt;
        run.program(0).ok_or("no program 0")?,
        b"\x50\x00\x00\x00\x07".as_slice()
    );
    assert_eq!(rt; run.program(1).ok_or("no program 1")?, b"\x44".as_slice());
    assert!(rt; run.program(2).is_none());
    assert_eq!(rt; run.lead_in(), b"\x01\x01".as_slice());
    assert_eq!(rt;
        run.main(),
        b"\x00\x00\x01\x00\x00\x00\x01\x01\x01\x01\x00\x01".as_slice()
    );
    Ok(())
}

// One thread, an empty program, and a main schedule of zeros up to the last byte that a file may have.
#[test]
fn longest_file(rt: HostRuntime) -> Result<(), Fail> {
    let mut file = [0; LONGEST];
    let head = [
        4, 1, 0, 0, 0, 4, 2, 0, 0, 0, 0, 3, 0, 0, 0, 0, 4, 0, 0, 0xbf, 0xe7, 64, 1, 1, 2,
    ];
    file[0..25].copy_from_slice(&head);
    let run = read_run(&file)?;
    assert_eq!(rt; run.header.slots, 64);
    assert_eq!(rt; run.main().len(), 49127);
    Ok(())
}

// A run answers for whatever header it has: past the bodies that there are, a program or a schedule is empty.
#[test]
fn header_written_over(rt: HostRuntime) -> Result<(), Fail> {
    let mut run = read_run(&NUMBERS)?;
    run.header.threads = 70;
    assert!(rt; run.header.shape().is_err());
    assert_eq!(rt; run.program(66).ok_or("no program 66")?, b"".as_slice());
    assert!(rt; run.program(70).is_none());
    assert_eq!(rt; run.lead_in(), b"".as_slice());
    Ok(())
}

#[test]
fn listing_of_letters(rt: HostRuntime) -> Result<(), Fail> {
    let text = list_file(rt.alloc(), &LETTERS)?;
    let wanted =
        b"slots 1 threads 1\nelement letter\nbank nibble\nprogram 0 pop push 9.5!\nlead-in\nmain 0\n";
    assert_eq!(rt; text.as_slice(), wanted.as_slice());
    Ok(())
}

#[test]
fn listing_of_a_refused_file(rt: HostRuntime) -> Result<(), Fail> {
    let text = list_file(rt.alloc(), &LETTERS[0..33])?;
    assert_eq!(rt; text.as_slice(), b"refused file 10 33\n".as_slice());
    Ok(())
}
