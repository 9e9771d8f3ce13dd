// Reading a whole run file.
ghost use Rattle.std.specs.Prelude.{◌≡◌, ◌+◌, ◌*◌, ◌≤◌, map, length, drop, IfOk};
ghost use Rattle.std.specs.List.{flat_map};
ghost use Rattle.runfile.specs.Files.{bodies_read, contents_of, count_read, counted, divided, lead_in_in, main_in, outcome, parsed, programs_checked, programs_in, run_checked};
ghost use Rattle.runfile.specs.Forms.{Formed};
ghost use Rattle.runfile.specs.Tables.{cut_of, parts};

use super::bodies::Bodies;
use super::count::Count;
use super::fault::{Fault, FileRefusal};
use super::header::read_header;
use super::kinds::ElementKind;
use super::letter::Letter;
use super::number::Number;
use super::program::check_programs;
use super::runs::RunFile;
use super::schedule::check_schedule;
use super::table::{check_table, cut_bodies};
use super::tabled::TabledFile;
use faults::numbered::Numbered;

// No lawful file is longer.
pub const LONGEST: usize = 49152;

// A file that is not too long, with its table.
fn read_table(file: &[u8]) -> Result<TabledFile<'_>, Fault>
    ensures value { count_read result ≡ counted file.now }
    ensures same { IfOk result (λ t. t.bytes.now ≡ file.now) }
{
    if file.len() > LONGEST {
        return Err(FileRefusal::Tail.at(LONGEST));
    }
    let [count, ..] = file else {
        return Err(FileRefusal::Cut.at(0));
    };
    let count = Count::new(*count).ok_or(FileRefusal::Contents.at(0))?;
    if file.len() < count.table_end() {
        return Err(FileRefusal::Cut.at(file.len()));
    }
    Ok(TabledFile { bytes: file, count })
}

// The bodies of a file.
fn read_bodies<'a>(file: &TabledFile<'a>) -> Result<Bodies<'a>, Fault>
    ensures { parts file.now.count.entries result ≡ divided file.now.count.entries file.now.bytes.now }
{
    check_table(file)?;
    cut_bodies(file)
}

// Refuses programs of one kind of elements at the first wrong operation; answers where they end.
// The bound on places stays a `requires`: a struct of bytes with their place would have to be made, with this same
// fact to show, before each call.
fn check_kind(element: ElementKind, programs: &[&[u8]], place: usize) -> Result<usize, Fault>
    requires { place + length (flat_map (λ p. p) (map (λ p. p.now) programs.now)) ≤ 49152 }
    ensures value { result ≡ programs_checked element (map (λ p. p.now) programs.now) place }
    ensures end { IfOk result (λ e. e ≡ place + length (flat_map (λ p. p) (map (λ p. p.now) programs.now))) }
{
    // Each arm is at its own type of elements, for which a closure has no parameter.
    match element {
        ElementKind::Number => check_programs::<Number>(programs, place),
        ElementKind::Letter => check_programs::<Letter>(programs, place),
    }
}

// Refuses a run at its first wrong operation, then at its first wrong schedule byte; the programs begin at `place`.
// The bound stays a `requires`, as above.
fn check_run(run: &RunFile, place: usize) -> Result<(), Fault>
    requires few { run.now.header.threads ≤ 64 }
    requires within { place + length (flat_map (λ b. b) (drop 1 (contents_of run.now).bodies)) ≤ 49152 }
    ensures { let c = contents_of run.now in result ≡ run_checked c.header (programs_in c.header.threads c.bodies) (lead_in_in c.header.threads c.bodies) (main_in c.header.threads c.bodies) place }
{
    let threads = run.header.threads;
    let lead_in = run.lead_in();
    let end = check_kind(run.header.element, run.programs(), place)?;
    check_schedule(lead_in, threads, end)?;
    check_schedule(run.main(), threads, end + lead_in.len())
}

// Reads the shape body, and refuses the others at their first wrong byte; the bodies begin where the table ends. The
// bound stays a `requires`, as above.
fn check_bodies<'a>(bodies: Bodies<'a>, count: Count) -> Result<RunFile<'a>, Fault>
    requires { 1 + 5 * count.entries + length (flat_map (λ b. b) (cut_of count.entries bodies)) ≤ 49152 }
    ensures { outcome result ≡ bodies_read count.entries (cut_of count.entries bodies.entry) (1 + 5 * count.entries) }
{
    let shape = bodies.cuts[0];
    let header = read_header(shape, count)?;
    let run = RunFile { header, bodies };
    check_run(&run, count.table_end() + shape.len())?;
    Ok(run)
}

// The run that a file holds, or the first fault that the checks find in it.
pub fn read_run(file: &[u8]) -> Result<RunFile<'_>, Fault>
    ensures value { outcome result ≡ parsed file.now }
    ensures form { Formed file.now (outcome result) }
{
    let file = read_table(file)?;
    let bodies = read_bodies(&file)?;
    check_bodies(bodies, file.count)
}
