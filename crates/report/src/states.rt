// A report is new, then open, then closed. None of the three can be copied or dropped, so that
// the heading comes first and nothing comes behind the closing line. The project asks for three types of
// a plain number, so they are not one type with a parameter.
ghost use Rattle.std.specs.Prelude.{◌≡◌, ℕ};
ghost use Rattle.report.specs.Lines.{closing_line, heading_line, line_for, word_of};
ghost use Rattle.report.specs.Pieces.{left_at, wrote_at};
ghost use Rattle.report.specs.States.{accepted, closed, headed, longer};

use super::counts::Counts;
use super::line::Part;
use super::piece::write_piece;
use history::entry::{Entry, Kind};
use runfile::element::Element;
use text::refusal::AreaRefusal;
use turns::shape::Shape;

// A new report accepts the heading. Every report holds how much of the area is written.
pub struct NewReport {
    written: usize,
}

// An open report accepts entries and the closing line.
pub struct OpenReport {
    written: usize,
}

// A closed report accepts no piece.
pub struct ClosedReport {
    written: usize,
}

// Why a piece was refused, and the report as it was before.
pub struct Refused<R> {
    pub refusal: AreaRefusal,
    pub report: R,
}

// A report that is not closed may be let go where it stands.
pub trait Unclosed {
    ghost size: { Self → ℕ };

    // Answers how much is written.
    fn abandon(self) -> usize
        ensures { result ≡ size self };
}

impl Unclosed for NewReport {
    ghost size = { λ report. report.written };

    fn abandon(self) -> usize {
        let NewReport { written: size } = self;
        size
    }
}

impl Unclosed for OpenReport {
    ghost size = { λ report. report.written };

    fn abandon(self) -> usize {
        let OpenReport { written: size } = self;
        size
    }
}

// The first word of an entry's line. It is bytes and no `Display`: a line goes whole into memory that the
// caller lends, and a formatter would leave half of it where the area ends.
fn word(kind: Kind) -> &'static [u8]
    ensures { result.now ≡ word_of kind }
{
    match kind {
        Kind::Push => b"push",
        Kind::Pop => b"pop",
    }
}

impl NewReport {
    pub fn new() -> NewReport
        ensures { result.written ≡ 0 }
    {
        NewReport { written: 0 }
    }

    // Writes `slots Q threads N`.
    pub fn heading(self, area: &mut [u8], shape: &Shape) -> Result<OpenReport, Refused<NewReport>>
        ensures answer { result ≡ headed self area.old (heading_line shape.now.slots shape.now.threads) }
        ensures after { area.new ≡ left_at area.old self.written (heading_line shape.now.slots shape.now.threads) }
    {
        let NewReport { written } = self;
        let parts = [
            Part::Word(b"slots"),
            Part::Number(shape.slots() as u64),
            Part::Word(b"threads"),
            Part::Number(shape.threads() as u64),
        ];
        let written = write_piece(area, written, &parts).map_err(|refusal| Refused {
            refusal,
            report: NewReport { written },
        })?;
        Ok(OpenReport { written })
    }
}

impl OpenReport {
    // Writes `push K T E` or `pop K T E`.
    pub fn entry<E: Element>(&mut self, area: &mut [u8], entry: Entry<E>) -> Result<(), AreaRefusal>
        ensures answer { result ≡ accepted self.old area.old (line_for E.Element.printed entry) }
        ensures report { self.new ≡ longer self.old area.old (line_for E.Element.printed entry) }
        ensures after { area.new ≡ left_at area.old self.old.written (line_for E.Element.printed entry) }
    {
        let text = entry.element.text();
        let parts = [
            Part::Word(word(entry.kind)),
            Part::Number(entry.thread as u64),
            Part::Number(entry.ticket as u64),
            Part::Word(text.as_bytes()),
        ];
        self.written = write_piece(area, self.written, &parts)?;
        Ok(())
    }

    // Writes `left P D W`.
    pub fn closing(
        self,
        area: &mut [u8],
        counts: Counts,
    ) -> Result<ClosedReport, Refused<OpenReport>>
        ensures answer { result ≡ closed self area.old (closing_line counts.pushes counts.pops counts.waiting) }
        ensures after { area.new ≡ left_at area.old self.written (closing_line counts.pushes counts.pops counts.waiting) }
    {
        let OpenReport { written } = self;
        let parts = [
            Part::Word(b"left"),
            Part::Number(counts.pushes as u64),
            Part::Number(counts.pops as u64),
            Part::Number(counts.waiting as u64),
        ];
        let written = write_piece(area, written, &parts).map_err(|refusal| Refused {
            refusal,
            report: OpenReport { written },
        })?;
        Ok(ClosedReport { written })
    }
}

impl ClosedReport {
    // Lets the report go, and answers how long it is.
    pub fn finish(self) -> usize
        ensures { result ≡ self.written }
    {
        let ClosedReport { written } = self;
        written
    }
}
