// What the elements of a run file are: one trait for every kind.
ghost use Rattle.std.specs.Prelude.{◌≡◌, ℕ, ◌≤◌, List};
ghost use Rattle.text.specs.Texts.{text_of};
ghost use Rattle.runfile.specs.Elements.{Format, element};

use super::fault::Fault;
use text::holder::Text;

pub trait Element: Copy {
    // How many bytes an element has in a file.
    const WIDTH: usize;

    ghost WIDTH: { ℕ };

    // The width, the rule for lawful bytes, and what they mean.
    ghost format: { Format Self };

    ghost printed: { Self → List ℕ };

    // The element at the start of `bytes`, of an operation that begins at `place`.
    fn read(bytes: &[u8], place: usize) -> Result<Self, Fault>
        ensures { result ≡ element format bytes.now place };

    // What is printed of an element.
    fn text(&self) -> Text
        ensures { text_of result ≡ printed self.now };

    ghost wide: { format.width ≡ WIDTH };

    // No element is longer than the longest file.
    ghost narrow: { format.width ≤ 49152 };
}
