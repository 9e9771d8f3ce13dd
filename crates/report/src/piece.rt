// Pieces of a report: lines behind what is written already.
ghost use Rattle.std.specs.Prelude.{◌≡◌, map};
ghost use Rattle.report.specs.Lines.{bytes_of, line_of};
ghost use Rattle.report.specs.Pieces.{left_at, wrote_at};

use super::line::{Part, write_line};
use text::refusal::AreaRefusal;

// The line goes whole into the rest of the area, which is lent on from the written length, or the
// area stays as it is; answers how much is written then.
pub(crate) fn write_piece(
    area: &mut [u8],
    written: usize,
    parts: &[Part<'_>],
) -> Result<usize, AreaRefusal>
    ensures answer { result ≡ wrote_at area.old written (line_of (map bytes_of parts.now)) }
    ensures after { area.new ≡ left_at area.old written (line_of (map bytes_of parts.now)) }
{
    // No rest: the report belongs to another area.
    if area.len() < written {
        return Err(AreaRefusal::ShortArea);
    }
    let more = write_line(&mut area[written..], parts)?;
    Ok(written + more)
}
