// How many entries a table has.
ghost use Rattle.std.specs.Prelude.{◌≡◌, ◌+◌, ◌*◌, ◌<◌, ◌≤◌, ◌⊎◌, MatchOption};
ghost use Rattle.runfile.specs.Tables.{expected};

use super::kinds::BodyKind;

// A shape, a program for each of 1 to 64 threads, and two schedules.
#[derive(Clone, Copy)]
pub(crate) struct Count {
    entries: usize,
    ghost some: { 4 ≤ entries },
    ghost few: { entries ≤ 67 },
}

impl Count {
    // The count that a file's first byte stands for.
    pub(crate) fn new(byte: u8) -> Option<Count>
        ensures { MatchOption result ((byte < 4) ⊎ (67 < byte)) (λ c. c.entries ≡ byte) }
    {
        match byte {
            4..=67 => Some(Count {
                entries: byte as usize,
            }),
            _ => None,
        }
    }

    pub(crate) fn threads(self) -> u8
        ensures { result + 3 ≡ self.entries }
    {
        (self.entries - 3) as u8
    }

    // Where the table ends and the bodies begin.
    pub(crate) fn table_end(self) -> usize
        ensures { result ≡ 1 + 5 * self.entries }
    {
        1 + 5 * self.entries
    }

    // The kind that an entry has to have: the shape, then the programs, then the two schedules.
    pub(crate) fn kind_at(self, index: usize) -> BodyKind
        ensures { result ≡ expected self.entries index }
    {
        if index == 0 {
            BodyKind::Shape
        } else if index < self.entries - 2 {
            BodyKind::Program
        } else if index == self.entries - 2 {
            BodyKind::LeadIn
        } else {
            BodyKind::Main
        }
    }
}
