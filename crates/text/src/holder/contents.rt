// What a text holds, and how it grows.
ghost use Rattle.std.specs.Prelude.{◌≡◌, ◌≤◌, true, [], length, is_err};
ghost use Rattle.text.specs.Texts.{text_of, grew, grown};

use super::super::piece::Piece;
use super::super::refusal::AreaRefusal;
use super::{LIMIT, Text};

impl Text {
    pub fn new() -> Text
        ensures { text_of result ≡ [] }
    {
        Text {
            bytes: [0; LIMIT],
            used: 0,
        }
    }

    // The piece goes whole behind what is there, or the text stays as it is; the rest of the bytes is lent on.
    pub fn push<P: Piece>(&mut self, piece: P) -> Result<(), AreaRefusal>
        ensures answer { result ≡ grew (text_of self.old) (P.Piece.bytes piece) }
        ensures after { text_of self.new ≡ grown (text_of self.old) (P.Piece.bytes piece) }
        ensures kept { is_err result ≡ true → self.new ≡ self.old }
    {
        self.used += piece.write(&mut self.bytes[self.used..])?;
        Ok(())
    }

    pub fn as_bytes(&self) -> &[u8]
        ensures exact { result.now ≡ text_of self.now }
        ensures bound { length result.now ≤ 32 }
    {
        &self.bytes[0..self.used]
    }
}
