// Why a report ended early, and how much of it was written by then.
ghost use Rattle.std.specs.Prelude.{◌≡◌};

use super::states::{Refused, Unclosed};
use faults::numbered::Numbered;
use text::refusal::AreaRefusal;

// The place is the length of what was written.
pub type Fault = faults::fault::Fault<AreaRefusal>;

impl<R: Unclosed> From<Refused<R>> for Fault {
    ghost from_gives = { λ refused fault. fault ≡ record { refusal = refused.refusal; place = R.Unclosed.size refused.report } };

    fn from(refused: Refused<R>) -> Fault {
        let Refused { refusal, report } = refused;
        refusal.at(report.abandon())
    }
}
