// Pieces of text, and how each is written whole or not at all.
ghost use Rattle.std.specs.Prelude.{◌≡◌, ◌≤◌, ℕ, List, length, decimal};
ghost use Rattle.text.specs.Areas.{wrote, left};

use super::refusal::AreaRefusal;

// Bytes are a piece as they stand, and a number is one in decimal.
pub trait Piece: Copy {
    // What stands in an area once the piece is written.
    ghost bytes: { Self → List ℕ };

    // How many bytes these are: writers measure before they write.
    fn width(self) -> usize
        ensures { result ≡ length (bytes self) };

    // Puts the piece whole at the start of the area, or refuses and leaves the area alone. Each impl tests the room:
    // what fills a place of exact length would be a public function with a precondition, and there is none.
    fn write(self, area: &mut [u8]) -> Result<usize, AreaRefusal>
        ensures answer { result ≡ wrote area.old (bytes self) }
        ensures after { area.new ≡ left area.old (bytes self) };
}

impl<'a> Piece for &'a [u8] {
    ghost bytes = { λ piece. piece.now };

    fn width(self) -> usize {
        self.len()
    }

    fn write(self, area: &mut [u8]) -> Result<usize, AreaRefusal> {
        let size = self.width();
        if area.len() < size {
            return Err(AreaRefusal::ShortArea);
        }
        area[..size].copy_from_slice(self);
        Ok(size)
    }
}

// How many digits `n` has in decimal.
pub fn decimal_width(n: u64) -> usize
    ensures exact { result ≡ length (decimal n) }
    ensures bound { result ≤ 20 }
{
    if n < 10 { 1 } else { 1 + decimal_width(n / 10) }
}

// Fills a place that is exactly as long as the number, from its last digit back.
fn spell(place: &mut [u8], n: u64)
    requires { length place.old ≡ length (decimal n) }
    ensures { place.new ≡ decimal n }
{
    let last = place.len() - 1;
    place[last] = b'0' + (n % 10) as u8;
    if n >= 10 {
        spell(&mut place[0..last], n / 10);
    }
}

impl Piece for u64 {
    ghost bytes = { decimal };

    fn width(self) -> usize {
        decimal_width(self)
    }

    // The number is measured first, so that a refusal leaves no digit behind.
    fn write(self, area: &mut [u8]) -> Result<usize, AreaRefusal> {
        let width = self.width();
        if area.len() < width {
            return Err(AreaRefusal::ShortArea);
        }
        spell(&mut area[..width], self);
        Ok(width)
    }
}
