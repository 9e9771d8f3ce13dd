// Why a file is refused, and at which byte of it.
ghost use Rattle.runfile.specs.Faults.{number_of};

use faults::numbered::Numbered;

#[derive(Clone, Copy, PartialEq, Eq, Debug)]
pub enum FileRefusal {
    // The file ends too early.
    Cut = 10,
    // The table of contents is wrong.
    Contents = 11,
    // A body is wrong.
    Body = 12,
    // Bytes are left over.
    Tail = 13,
}

impl Numbered for FileRefusal {
    ghost told = { number_of };

    fn number(self) -> u8 {
        self as u8
    }
}

// A refusal and its place, an offset into the file.
pub type Fault = faults::fault::Fault<FileRefusal>;
