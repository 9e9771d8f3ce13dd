// Why no shape is made, with the number that users are told.
ghost use Rattle.turns.specs.Refusals.{number_of};

use faults::numbered::Numbered;

#[derive(Clone, Copy, PartialEq, Eq, Debug)]
pub enum ShapeRefusal {
    BadShape = 9,
}

impl Numbered for ShapeRefusal {
    ghost told = { number_of };

    fn number(self) -> u8 {
        self as u8
    }
}
