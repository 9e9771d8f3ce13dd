// Areas of every length from 0 to 25, and texts up to their limit.
use super::holder::{LIMIT, Text};
use super::piece::{Piece, decimal_width};
use super::refusal::AreaRefusal;
use faults::numbered::Numbered;
use std::process::Abort;
use std::test::Fail;

// Whether the area holds the piece at its start, and dots everywhere else.
fn holds(area: &[u8], piece: &[u8]) -> bool {
    area.starts_with(piece) && area.iter().skip(piece.len()).all(|byte| *byte == b'.')
}

// What a writer of this piece must answer for an area so long, and leave in it.
fn checked(
    rt: &impl Abort,
    answer: Result<usize, AreaRefusal>,
    area: &[u8],
    piece: &[u8],
) -> Result<(), Fail> {
    if piece.len() <= area.len() {
        assert_eq!(rt; answer, Ok(piece.len()));
        assert!(rt; holds(area, piece));
        Ok(())
    } else {
        assert_eq!(rt; answer, Err(AreaRefusal::ShortArea));
        assert!(rt; holds(area, b""));
        Ok(())
    }
}

// The same of a piece, for areas of every length.
fn at_every_length<P: Piece>(rt: &impl Abort, piece: P, text: &[u8]) -> Result<(), Fail> {
    for length in 0..=25 {
        let mut dots = [b'.'; 25];
        let area = &mut dots[0..length];
        let answer = piece.write(area);
        checked(rt, answer, area, text)?;
    }
    Ok(())
}

#[test]
fn numbers_at_every_length(rt: HostRuntime) -> Result<(), Fail> {
    let numbers: [(u64, &[u8]); 6] = [
        (0, b"0"),
        (9, b"9"),
        (10, b"10"),
        (255, b"255"),
        (4_294_967_295, b"4294967295"),
        (18_446_744_073_709_551_615, b"18446744073709551615"),
    ];
    for (n, spelled) in numbers {
        assert_eq!(rt; decimal_width(n), spelled.len());
        at_every_length(&rt, n, spelled)?;
    }
    Ok(())
}

#[test]
fn bytes_at_every_length(rt: HostRuntime) -> Result<(), Fail> {
    let line = b"slots 2 threads 2\n".as_slice();
    at_every_length(&rt, line, line)
}

#[test]
fn text_to_its_limit(rt: HostRuntime) -> Result<(), Fail> {
    let mut text = Text::new();
    assert!(rt; text.as_bytes() == b"".as_slice());
    text.push(255u64)?;
    text.push(b".".as_slice())?;
    text.push(4_294_967_295u64)?;
    text.push(b"!".as_slice())?;
    assert!(rt; text.as_bytes() == b"255.4294967295!".as_slice());
    assert_eq!(rt;
        text.push(123_456_789_012_345_678u64),
        Err(AreaRefusal::ShortArea)
    );
    assert!(rt; text.as_bytes() == b"255.4294967295!".as_slice());
    text.push(12_345_678_901_234_567u64)?;
    assert!(rt; text.as_bytes() == b"255.4294967295!12345678901234567".as_slice());
    assert_eq!(rt; text.as_bytes().len(), LIMIT);
    text.push(b"".as_slice())?;
    assert_eq!(rt; text.push(b"1".as_slice()), Err(AreaRefusal::ShortArea));
    assert!(rt; text.as_bytes() == b"255.4294967295!12345678901234567".as_slice());
    Ok(())
}

#[test]
fn short_area_is_14(rt: HostRuntime) {
    assert_eq!(rt; AreaRefusal::ShortArea.number(), 14);
}
