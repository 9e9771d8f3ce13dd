// Why a call is declined, with the number and the word that users are told.
ghost use Rattle.std.specs.Prelude.{◌≡◌, Some};
ghost use Rattle.world.specs.Refusals.{number_of, word_of};

use faults::numbered::Numbered;
use std::fmt;

#[derive(Clone, Copy, PartialEq, Eq, Debug)]
pub enum Refusal {
    Stranger = 1,
    Misfit = 2,
    Busy = 3,
    NoWork = 4,
    Spent = 5,
    RecordFull = 6,
    Unfinished = 7,
    ShortCycle = 8,
    BadShape = 9,
}

impl Numbered for Refusal {
    ghost told = { number_of };

    fn number(self) -> u8 {
        self as u8
    }
}

impl Refusal {
    // The word that users are told.
    pub fn word(self) -> &'static str
        ensures { result.now ≡ word_of self }
    {
        match self {
            Refusal::Stranger => "stranger",
            Refusal::Misfit => "misfit",
            Refusal::Busy => "busy",
            Refusal::NoWork => "no work",
            Refusal::Spent => "spent",
            Refusal::RecordFull => "record full",
            Refusal::Unfinished => "unfinished",
            Refusal::ShortCycle => "short cycle",
            Refusal::BadShape => "bad shape",
        }
    }
}

impl fmt::Display for Refusal {
    ghost output = { λ refusal. Some (word_of refusal) };

    fn fmt<W: fmt::Write>(&self, f: &mut fmt::Formatter<W>) -> fmt::Result {
        f.write_str(self.word())
    }
}
