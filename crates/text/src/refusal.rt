// Why a piece was not written, with the number that users are told.
ghost use Rattle.text.specs.Refusals.{number_of};

use faults::numbered::Numbered;

#[derive(Clone, Copy, PartialEq, Eq, Debug)]
pub enum AreaRefusal {
    ShortArea = 14,
}

impl Numbered for AreaRefusal {
    ghost told = { number_of };

    fn number(self) -> u8 {
        self as u8
    }
}
