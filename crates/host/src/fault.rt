// Why there is no report: which layer refused, by which number, and at which place.
ghost use Rattle.std.specs.Prelude.{◌≡◌, ◌∷◌, [], codes, decimal, map};
ghost use Rattle.report.specs.Lines.{bytes_of};
ghost use Rattle.host.specs.Faults.{refusal_parts};

use faults::numbered::Numbered;
use report::line::Part;

// A fault of a layer below, as it came up.
#[derive(Clone, Copy, PartialEq, Eq, Debug)]
pub enum Fault {
    File(runfile::fault::Fault),
    Machine(play::fault::Fault),
    Report(report::fault::Fault),
}

// The parts of the line that tells a fault of this layer.
fn parts_of<R: Numbered>(layer: &'static [u8], fault: faults::fault::Fault<R>) -> [Part<'static>; 4]
    ensures { map bytes_of result ≡ codes "refused" ∷ layer.now ∷ decimal (R.Numbered.told fault.refusal) ∷ decimal fault.place ∷ [] }
{
    [
        Part::Word(b"refused"),
        Part::Word(layer),
        Part::Number(fault.refusal.number() as u64),
        Part::Number(fault.place as u64),
    ]
}

impl Fault {
    // The parts of the line that stands in place of a report; number and place are told unchanged.
    pub(crate) fn parts(self) -> [Part<'static>; 4]
        ensures { map bytes_of result ≡ refusal_parts self }
    {
        match self {
            Fault::File(fault) => parts_of(b"file", fault),
            Fault::Machine(fault) => parts_of(b"machine", fault),
            Fault::Report(fault) => parts_of(b"report", fault),
        }
    }
}
