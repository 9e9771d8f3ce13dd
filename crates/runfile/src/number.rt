// Elements that are numbers.
ghost use Rattle.runfile.specs.Elements.{number_format, number_text};
ghost use Rattle.std.proofs.Common.{rules};

use super::element::Element;
use super::fault::{Fault, FileRefusal};
use faults::numbered::Numbered;
use text::holder::Text;

#[derive(Clone, Copy, PartialEq, Eq, Debug)]
pub struct Number {
    pub value: u32,
}

impl Element for Number {
    const WIDTH: usize = 4;

    ghost WIDTH = { 4 };

    ghost format = { number_format };

    ghost printed = { number_text };

    ghost wide = { Prim.search rules };

    ghost narrow = { Prim.search rules };

    fn read(bytes: &[u8], place: usize) -> Result<Number, Fault> {
        match bytes {
            [a, b, c, d, ..] => {
                let value = u32::from_be_bytes([*a, *b, *c, *d]);
                Ok(Number { value })
            }
            _ => Err(FileRefusal::Body.at(place)),
        }
    }

    fn text(&self) -> Text {
        let mut text = Text::new();
        // At most ten digits, so the text has room.
        let _ = text.push(self.value as u64);
        text
    }
}
