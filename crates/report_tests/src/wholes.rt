// Whole reports, in areas of every length from 0 to some bytes more than the text has.
use super::samples::{counts, holds, number, plain, pop, push, urgent, whole_lines};
use history::entry::Entry;
use report::counts::Counts;
use report::fault::Fault;
use report::whole::write_report;
use runfile::element::Element;
use std::process::Abort;
use std::test::Fail;
use text::refusal::AreaRefusal;
use turns::shape::Shape;

// The answer and the area must be right for the text at every length: whole lines and nothing else.
fn every_length<E: Element>(
    rt: &impl Abort,
    entries: &[Entry<E>],
    used: usize,
    counts: Counts,
    text: &[u8],
) -> Result<(), Fail> {
    let shape = Shape::new(2, 64)?;
    for length in 0..=200 {
        let mut dots = [b'.'; 200];
        let area = &mut dots[0..length];
        let answer = write_report(area, &shape, entries, used, counts);
        let place = whole_lines(text, length);
        if length < text.len() {
            // Written out: `at` makes the answer that is tested.
            assert_eq!(rt;
                answer,
                Err(Fault {
                    refusal: AreaRefusal::ShortArea,
                    place,
                })
            );
        } else {
            assert_eq!(rt; answer, Ok(text.len()));
        }
        assert!(rt; holds(area, text, place));
    }
    Ok(())
}

#[test]
fn numbers_at_every_length(rt: HostRuntime) -> Result<(), Fail> {
    let entries = [
        push(0, 0, number(7)),
        pop(1, 0, number(7)),
        push(255, 65_535, number(4_294_967_295)),
        pop(10, 1, number(0)),
    ];
    let text =
        b"slots 2 threads 64\npush 0 0 7\npop 1 0 7\npush 255 65535 4294967295\npop 10 1 0\nleft 65535 1 64\n";
    every_length(&rt, &entries, 4, counts(65_535, 1, 64), text)
}

#[test]
fn letters_at_every_length(rt: HostRuntime) -> Result<(), Fail> {
    let entries = [
        push(0, 0, urgent(255, 4_294_967_295)),
        pop(1, 0, plain(0, 0)),
        push(2, 1, plain(9, 10)),
    ];
    let text =
        b"slots 2 threads 64\npush 0 0 255.4294967295!\npop 1 0 0.0\npush 2 1 9.10\nleft 2 1 0\n";
    every_length(&rt, &entries, 3, counts(2, 1, 0), text)
}

#[test]
fn used_entries_alone(rt: HostRuntime) -> Result<(), Fail> {
    let entries = [push(0, 0, number(7)), pop(1, 0, number(7))];
    every_length(
        &rt,
        &entries,
        0,
        counts(0, 0, 0),
        b"slots 2 threads 64\nleft 0 0 0\n",
    )?;
    every_length(
        &rt,
        &entries,
        1,
        counts(1, 0, 0),
        b"slots 2 threads 64\npush 0 0 7\nleft 1 0 0\n",
    )?;
    // More than there are.
    every_length(
        &rt,
        &entries,
        9,
        counts(1, 1, 0),
        b"slots 2 threads 64\npush 0 0 7\npop 1 0 7\nleft 1 1 0\n",
    )
}

#[test]
fn worked_example(rt: HostRuntime) -> Result<(), Fail> {
    let shape = Shape::new(2, 2)?;
    let entries = [push(0, 0, number(7)), pop(1, 0, number(7))];
    let mut area = [b'.'; 64];
    let size = write_report(&mut area, &shape, &entries, 2, counts(1, 1, 0))?;
    assert_eq!(rt; size, 50);
    assert!(rt;
        holds(
            &area,
            b"slots 2 threads 2\npush 0 0 7\npop 1 0 7\nleft 1 1 0\n",
            50,
        )
    );
    Ok(())
}
