// A user of reports, who goes through their three states. Edits of it that leave the order of the
// states are turned down by the checker.
#![tactic(auto)]

ghost use Rattle.std.specs.Prelude.{◌≡◌, [], ◌∷◌, length};
ghost use Rattle.runfile.specs.Elements.{number_text};
ghost use Rattle.text.specs.Areas.{put};
ghost use Rattle.report.specs.Lines.{line_for};
ghost use Rattle.report.specs.Pieces.{left_at};
ghost use Rattle.report.specs.Reports.{fitting, pieces_of, reported, text_of};
ghost use Rattle.report_uses.specs.Uses.{entered, one_of_each};

use faults::numbered::Numbered;
use history::entry::Entry;
use report::counts::Counts;
use report::fault::Fault;
use report::states::{NewReport, OpenReport, Unclosed};
use runfile::number::Number;
use turns::shape::Shape;

// An entry, or the fault with which the report ends.
fn with_entry(
    mut open: OpenReport,
    area: &mut [u8],
    entry: Entry<Number>,
) -> Result<OpenReport, Fault>
    ensures answer { result ≡ entered «open» area.old (line_for number_text entry) }
    ensures after { area.new ≡ left_at area.old «open».written (line_for number_text entry) }
{
    // `?` would let the open report go, and it has to be abandoned.
    match open.entry(area, entry) {
        Ok(()) => Ok(open),
        Err(refusal) => Err(refusal.at(open.abandon())),
    }
}

// A report of two entries, one push and one pop handed out.
pub fn write_pair(
    area: &mut [u8],
    shape: &Shape,
    first: Entry<Number>,
    second: Entry<Number>,
) -> Result<usize, Fault>
    ensures answer { result ≡ reported (length area.old) (pieces_of number_text shape.now (first ∷ second ∷ []) one_of_each) }
    ensures after { area.new ≡ put area.old 0 (text_of (fitting (length area.old) (pieces_of number_text shape.now (first ∷ second ∷ []) one_of_each))) }
{
    let new = NewReport::new();
    let open = new.heading(area, shape)?;
    let open = with_entry(open, area, first)?;
    let open = with_entry(open, area, second)?;
    let counts = Counts {
        pushes: 1,
        pops: 1,
        waiting: 0,
    };
    let closed = open.closing(area, counts)?;
    Ok(closed.finish())
}
