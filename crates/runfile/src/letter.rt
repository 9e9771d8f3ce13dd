// Elements that are letters: who sent it, in which tone, and its serial number.
ghost use Rattle.std.specs.Prelude.{◌≡◌};
ghost use Rattle.runfile.specs.Elements.{letter_format, letter_text, mark, tone_read};
ghost use Rattle.std.proofs.Common.{rules};

use super::element::Element;
use super::fault::{Fault, FileRefusal};
use super::kinds::UnknownKind;
use faults::numbered::Numbered;
use text::holder::Text;

#[derive(Clone, Copy, PartialEq, Eq, Debug)]
pub enum Tone {
    Plain = 0,
    Urgent = 1,
}

#[derive(Clone, Copy, PartialEq, Eq, Debug)]
pub struct Letter {
    pub sender: u8,
    pub tone: Tone,
    pub serial: u32,
}

impl Tone {
    // What stands behind an urgent letter's serial number: bytes and no `Display`, since a `Text` needs no heap
    // and no formatter.
    fn mark(self) -> &'static [u8]
        ensures { result.now ≡ mark self }
    {
        match self {
            Tone::Plain => b"",
            Tone::Urgent => b"!",
        }
    }
}

impl TryFrom<u8> for Tone {
    type Error = UnknownKind;

    ghost try_from_gives = { λ code made. made ≡ tone_read code };

    fn try_from(code: u8) -> Result<Tone, UnknownKind> {
        match code {
            0 => Ok(Tone::Plain),
            1 => Ok(Tone::Urgent),
            _ => Err(UnknownKind(code)),
        }
    }
}

impl Element for Letter {
    const WIDTH: usize = 6;

    ghost WIDTH = { 6 };

    ghost format = { letter_format };

    ghost printed = { letter_text };

    ghost wide = { Prim.search rules };

    ghost narrow = { Prim.search rules };

    fn read(bytes: &[u8], place: usize) -> Result<Letter, Fault> {
        let [sender, tone, a, b, c, d, ..] = bytes else {
            return Err(FileRefusal::Body.at(place));
        };
        let tone = Tone::try_from(*tone).map_err(|_| FileRefusal::Body.at(place))?;
        let serial = u32::from_be_bytes([*a, *b, *c, *d]);
        Ok(Letter {
            sender: *sender,
            tone,
            serial,
        })
    }

    fn text(&self) -> Text {
        let mut text = Text::new();
        // At most 15 bytes, so the text has room for each piece.
        let _ = text.push(self.sender as u64);
        let _ = text.push(b".".as_slice());
        let _ = text.push(self.serial as u64);
        let _ = text.push(self.tone.mark());
        text
    }
}
