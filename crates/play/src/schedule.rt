// The two schedules of a run, taken as one.
ghost use Rattle.std.specs.Prelude.{◌≡◌};
ghost use Rattle.play.specs.Schedules.{still_to_run};

// The lead-in's entries come first, then the main schedule's.
#[derive(Clone, Copy)]
pub struct Schedule<'a> {
    pub lead_in: &'a [u8],
    pub main: &'a [u8],
}

impl<'a> Schedule<'a> {
    // What is still to run after so many entries: a part of the lead-in, after its end a part of the
    // main schedule, and nothing past both.
    pub fn still_to_run(&self, taken: usize) -> &'a [u8]
        ensures { result.now ≡ still_to_run self.now.lead_in.now self.now.main.now taken }
    {
        if taken < self.lead_in.len() {
            &self.lead_in[taken..]
        } else {
            let past = taken - self.lead_in.len();
            self.main.get(past..).unwrap_or_default()
        }
    }
}
