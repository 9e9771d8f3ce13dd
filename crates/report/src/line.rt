// Lines: parts with single spaces between them and a line feed at the end.
ghost use Rattle.std.specs.Prelude.{◌≡◌, map, length};
ghost use Rattle.text.specs.Areas.{wrote, left};
ghost use Rattle.report.specs.Lines.{bytes_of, end_of, line_of};

use text::piece::Piece;
use text::refusal::AreaRefusal;

// A part of a line: a word as it stands, or a number in decimal.
#[derive(Clone, Copy)]
pub enum Part<'a> {
    Word(&'a [u8]),
    Number(u64),
}

impl<'a> Piece for Part<'a> {
    ghost bytes = { bytes_of };

    fn width(self) -> usize {
        match self {
            Part::Word(word) => word.width(),
            Part::Number(n) => n.width(),
        }
    }

    fn write(self, area: &mut [u8]) -> Result<usize, AreaRefusal> {
        match self {
            Part::Word(word) => word.write(area),
            Part::Number(n) => n.write(area),
        }
    }
}

// What stands behind a part: a space when others follow, and a line feed behind the last.
fn part_end(rest: &[Part<'_>]) -> u8
    ensures { result ≡ end_of rest.now }
{
    match rest {
        [] => b'\n',
        _ => b' ',
    }
}

// A line goes whole to the start of the area, or the area stays as it is. What follows a part is
// written first: where that is refused, nothing is written yet.
pub fn write_line(area: &mut [u8], parts: &[Part<'_>]) -> Result<usize, AreaRefusal>
    ensures answer { result ≡ wrote area.old (line_of (map bytes_of parts.now)) }
    ensures after { area.new ≡ left area.old (line_of (map bytes_of parts.now)) }
{
    let [part, rest @ ..] = parts else {
        return Ok(0);
    };
    let width = part.width();
    if area.len() <= width {
        return Err(AreaRefusal::ShortArea);
    }
    let more = write_line(&mut area[width + 1..], rest)?;
    area[width] = part_end(rest);
    // Its place is exactly as long as the part, so it is not refused.
    let _ = part.write(&mut area[..width]);
    Ok(width + 1 + more)
}
