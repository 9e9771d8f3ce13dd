// The shape body: four bytes that say what the run is made of.
ghost use Rattle.std.specs.Prelude.{◌≡◌, ◌+◌, ◌*◌, IfOk, MatchResult};
ghost use Rattle.turns.specs.Shapes.{Few};
ghost use Rattle.turns.specs.declared.refusal.ShapeRefusal.TheVariants.{BadShape};
ghost use Rattle.runfile.specs.Headers.{headed};

use super::count::Count;
use super::fault::{Fault, FileRefusal};
use super::kinds::{BankKind, ElementKind};
use faults::numbered::Numbered;
use turns::refusal::ShapeRefusal;
use turns::shape::Shape;

// Slots and threads are numbers and no `Shape`: who has a run may write others into its header, and what plays
// it answers for any.
#[derive(Clone, Copy)]
pub struct Header {
    pub slots: u8,
    pub threads: u8,
    pub element: ElementKind,
    pub bank: BankKind,
}

impl Header {
    // The run's shape; the header of a file that was read has one.
    pub fn shape(&self) -> Result<Shape, ShapeRefusal>
        ensures { MatchResult result (λ s. (s.slots ≡ self.now.slots) × (s.threads ≡ self.now.threads)) (λ e. (e ≡ BadShape) × (Few self.now.slots × Few self.now.threads → ⊥)) }
    {
        Shape::new(self.slots, self.threads)
    }
}

// The shape body, which begins where the table of so many entries ends.
pub(crate) fn read_header(body: &[u8], count: Count) -> Result<Header, Fault>
    ensures value { result ≡ headed count.entries body.now (1 + 5 * count.entries) }
    ensures threads { IfOk result (λ h. h.threads + 3 ≡ count.entries) }
{
    let place = count.table_end();
    let [slots, threads, element, bank] = body else {
        return Err(FileRefusal::Body.at(place));
    };
    let expected = count.threads();
    let shape = Shape::new(*slots, expected).map_err(|_| FileRefusal::Body.at(place))?;
    if *threads != expected {
        return Err(FileRefusal::Body.at(place + 1));
    }
    let element = ElementKind::try_from(*element).map_err(|_| FileRefusal::Body.at(place + 2))?;
    let bank = BankKind::try_from(*bank).map_err(|_| FileRefusal::Body.at(place + 3))?;
    Ok(Header {
        slots: shape.slots(),
        threads: shape.threads(),
        element,
        bank,
    })
}
