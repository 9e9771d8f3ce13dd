// Reports that go on after a refusal.
use super::samples::{counts, holds, number, pop, push};
use report::states::{ClosedReport, NewReport, OpenReport, Refused, Unclosed};
use std::test::Fail;
use text::refusal::AreaRefusal;
use turns::shape::Shape;

const TEXT: &[u8] = b"slots 2 threads 2\npush 0 0 7\npop 1 0 7\nleft 1 1 0\n";

// A match, here and below, since no report can be dropped: what was accepted by mistake is let go by `abandon` or by
// `finish`, so the two that are refused stay two.
fn heading_refused(new: NewReport, area: &mut [u8], shape: &Shape) -> Result<NewReport, Fail> {
    match new.heading(area, shape) {
        Ok(open) => {
            let _ = open.abandon();
            Err(Fail::new("the heading was accepted"))
        }
        Err(
            Refused {
                refusal: AreaRefusal::ShortArea,
                report,
            },
        ) => Ok(report),
    }
}

// A piece that has to be accepted; a report that is given back is let go.
fn accepted<T, R: Unclosed>(answer: Result<T, Refused<R>>) -> Result<T, Fail> {
    match answer {
        Ok(next) => Ok(next),
        Err(Refused { refusal: _, report }) => {
            let _ = report.abandon();
            Err(Fail::new("the piece was refused"))
        }
    }
}

fn closing_refused(open: OpenReport, area: &mut [u8]) -> Result<OpenReport, Fail> {
    match open.closing(area, counts(1, 1, 0)) {
        Ok(closed) => {
            let _ = closed.finish();
            Err(Fail::new("the closing line was accepted"))
        }
        Err(
            Refused {
                refusal: AreaRefusal::ShortArea,
                report,
            },
        ) => Ok(report),
    }
}

// Every piece is refused first, by an area that is one byte too short, and then accepted.
#[test]
fn refused_and_accepted(rt: HostRuntime) -> Result<(), Fail> {
    let shape = Shape::new(2, 2)?;
    let mut area = [b'.'; 64];
    let mut for_heading = [b'.'; 17];
    let mut for_push = [b'.'; 28];
    let mut for_closing = [b'.'; 49];
    let new = heading_refused(NewReport::new(), &mut for_heading, &shape)?;
    let mut open = accepted(new.heading(&mut area, &shape))?;
    let short = open.entry(&mut for_push, push(0, 0, number(7)));
    let first = open.entry(&mut area, push(0, 0, number(7)));
    let second = open.entry(&mut area, pop(1, 0, number(7)));
    let open = closing_refused(open, &mut for_closing)?;
    let closed = accepted(open.closing(&mut area, counts(1, 1, 0)))?;
    assert_eq!(rt; closed.finish(), TEXT.len());
    assert_eq!(rt; short, Err(AreaRefusal::ShortArea));
    assert_eq!(rt; first, Ok(()));
    assert_eq!(rt; second, Ok(()));
    assert!(rt; holds(&area, TEXT, TEXT.len()));
    assert!(rt; holds(&for_heading, TEXT, 0));
    assert!(rt; holds(&for_push, TEXT, 0));
    assert!(rt; holds(&for_closing, TEXT, 0));
    Ok(())
}

// An area that is shorter than what is written has no rest.
#[test]
fn another_area(rt: HostRuntime) -> Result<(), Fail> {
    let shape = Shape::new(2, 2)?;
    let mut area = [b'.'; 64];
    let mut other = [b'.'; 8];
    let mut open = accepted(NewReport::new().heading(&mut area, &shape))?;
    let entry = open.entry(&mut other, push(0, 0, number(7)));
    let open = closing_refused(open, &mut other)?;
    assert_eq!(rt; open.abandon(), 18);
    assert_eq!(rt; entry, Err(AreaRefusal::ShortArea));
    assert!(rt; holds(&other, TEXT, 0));
    assert!(rt; holds(&area, TEXT, 18));
    Ok(())
}
