// What a step did.
ghost use Rattle.std.specs.Prelude.{◌≡◌, Some};
ghost use Rattle.world.specs.StepNames.{name_of};

use std::fmt;

#[derive(Clone, Copy, PartialEq, Eq, Debug)]
pub enum Step {
    Took,
    Waited,
    Passed,
    Stored,
    Read,
    Emptied,
    Completed,
}

impl Step {
    // The name by which the step answers.
    pub fn name(self) -> &'static str
        ensures { result.now ≡ name_of self }
    {
        match self {
            Step::Took => "took",
            Step::Waited => "waited",
            Step::Passed => "passed",
            Step::Stored => "stored",
            Step::Read => "read",
            Step::Emptied => "emptied",
            Step::Completed => "completed",
        }
    }
}

impl fmt::Display for Step {
    ghost output = { λ step. Some (name_of step) };

    fn fmt<W: fmt::Write>(&self, f: &mut fmt::Formatter<W>) -> fmt::Result {
        f.write_str(self.name())
    }
}
