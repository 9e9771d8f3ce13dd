// Whole reports.
ghost use Rattle.std.specs.Prelude.{◌≡◌, length, take, IfOk};
ghost use Rattle.text.specs.Areas.{put};
ghost use Rattle.report.specs.Reading.{NumbersTold, Told};
ghost use Rattle.report.specs.Reports.{fitting, pieces_of, report_text, reported, text_of};

use super::counts::Counts;
use super::fault::Fault;
use super::states::{NewReport, Unclosed};
use faults::numbered::Numbered;
use history::entry::Entry;
use runfile::element::Element;
use turns::shape::Shape;

// Writes the heading, the first `used` entries in order (all where there are fewer, so that no caller has to
// show that its count is within) and the closing line to the start of the
// area, and answers the report's length; or writes the pieces that fit, and answers their length.
pub fn write_report<E: Element>(
    area: &mut [u8],
    shape: &Shape,
    entries: &[Entry<E>],
    used: usize,
    counts: Counts,
) -> Result<usize, Fault>
    ensures answer { result ≡ reported (length area.old) (pieces_of E.Element.printed shape.now (take used entries.now) counts) }
    ensures after { area.new ≡ put area.old 0 (text_of (fitting (length area.old) (pieces_of E.Element.printed shape.now (take used entries.now) counts))) }
    ensures whole { IfOk result (λ size. (size ≡ length (report_text E.Element.printed shape.now (take used entries.now) counts)) × (area.new ≡ put area.old 0 (report_text E.Element.printed shape.now (take used entries.now) counts))) }
    ensures told { Told E.Element.printed }
    ensures numbers { NumbersTold }
{
    let mut report = NewReport::new().heading(area, shape)?;
    let used_entries = &entries[..used.min(entries.len())];
    for entry in used_entries {
        // `?` would let the open report go, and it has to be abandoned.
        if let Err(refusal) = report.entry(area, *entry) {
            return Err(refusal.at(report.abandon()));
        }
    }
    let closed = report.closing(area, counts)?;
    Ok(closed.finish())
}
