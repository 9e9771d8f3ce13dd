// A run file that was read: its parts lie in the caller's bytes.
ghost use Rattle.std.specs.Prelude.{◌≡◌, ◌+◌, ◌<◌, [], map, slice_index_or};
ghost use Rattle.std.specs.Option.{option_map};
ghost use Rattle.runfile.specs.Files.{contents_of, lead_in_in, main_in, program_of, programs_in};

use super::bodies::Bodies;
use super::header::Header;

#[derive(Clone, Copy)]
pub struct RunFile<'a> {
    pub header: Header,
    pub(crate) bodies: Bodies<'a>,
}

impl<'a> RunFile<'a> {
    // The programs of the threads, in their order; where a header with more threads was written over the file's, at
    // most the 66 bodies behind the shape's.
    pub fn programs(&self) -> &[&'a [u8]]
        ensures { map (λ p. p.now) result.now ≡ programs_in (contents_of self.now).header.threads (contents_of self.now).bodies }
    {
        let threads = (self.header.threads as usize).min(self.bodies.cuts.len() - 1);
        &self.bodies.cuts[1..1 + threads]
    }

    // The program of a thread, or none where the run has no such thread.
    pub fn program(&self, thread: usize) -> Option<&'a [u8]>
        ensures { option_map (λ p. p.now) result ≡ program_of (contents_of self.now) thread }
    {
        if thread < self.header.threads as usize {
            Some(self.body(1 + thread))
        } else {
            None
        }
    }

    pub fn lead_in(&self) -> &'a [u8]
        ensures { result.now ≡ lead_in_in (contents_of self.now).header.threads (contents_of self.now).bodies }
    {
        self.after_programs(0)
    }

    pub fn main(&self) -> &'a [u8]
        ensures { result.now ≡ main_in (contents_of self.now).header.threads (contents_of self.now).bodies }
    {
        self.after_programs(1)
    }

    // One of the two bodies behind the programs.
    fn after_programs(&self, index: usize) -> &'a [u8]
        requires { index < 2 }
        ensures { result.now ≡ slice_index_or (contents_of self.now).bodies (1 + (contents_of self.now).header.threads + index) [] }
    {
        self.body(1 + self.header.threads as usize + index)
    }

    // The body at this place of the table; an empty one where there is none.
    fn body(&self, index: usize) -> &'a [u8]
        ensures { result.now ≡ slice_index_or (map (λ x. x.now) self.now.bodies.cuts) index [] }
    {
        self.bodies.cuts.get(index).copied().unwrap_or_default()
    }
}
