// The call that hosts make: a run file's bytes in, its report's bytes out.
ghost use Rattle.std.specs.Prelude.{◌≡◌, length, take, replicate, IfOk};
ghost use Rattle.text.specs.Areas.{left, wrote};
ghost use Rattle.host.specs.Faults.{refusal_line};
ghost use Rattle.host.specs.Tells.{FaithfulTo, Promise, Writes, hosted, told};

use super::fault::Fault;
use super::reporting::report_file;
use report::line::write_line;
use runfile::file::read_run;
use runfile::kinds::ElementKind;
use runfile::letter::{Letter, Tone};
use runfile::number::Number;
use text::refusal::AreaRefusal;

// C hosts are answered a signed number: this one where there is no room even for the refusal's line.
const NO_ROOM: i64 = -14;

// An element of each kind that cells, hands and record hold before anything is pushed.
const BLANK_NUMBER: Number = Number { value: 0 };

const BLANK_LETTER: Letter = Letter {
    sender: 0,
    tone: Tone::Plain,
    serial: 0,
};

// Writes the report of a file to the start of the area.
fn play_file(file: &[u8], area: &mut [u8]) -> Result<usize, Fault>
    ensures writes { Writes result area.old area.new (told file.now (length area.old)) }
    ensures faithful { IfOk result (λ size. FaithfulTo file.now (take size area.new)) }
{
    let run = read_run(file).map_err(Fault::File)?;
    // Each arm is at its own type of elements, for which a closure has no parameter.
    match run.header.element {
        ElementKind::Number => report_file(BLANK_NUMBER, &run, area),
        ElementKind::Letter => report_file(BLANK_LETTER, &run, area),
    }
}

// Writes a refusal's line in place of a report.
fn write_refusal(area: &mut [u8], fault: Fault) -> Result<usize, AreaRefusal>
    ensures answer { result ≡ wrote (replicate (length area.old) 0) (refusal_line fault) }
    ensures after { area.new ≡ left (replicate (length area.old) 0) (refusal_line fault) }
{
    area.fill(0);
    write_line(area, &fault.parts())
}

// Reads and plays a run file, and writes its report, or the line that says why there is none, to the start
// of the area, with zeroes behind it. Answers the text's length, or -14 where not even that line fits.
pub fn queue_bench_play(file: &[u8], area: &mut [u8]) -> i64
    ensures answer { (result, area.new) ≡ hosted file.now (length area.old) }
    ensures promise { Promise file.now (length area.old) result area.new }
{
    area.fill(0);
    // By `map_or(NO_ROOM, ..)` in place of the inner match the proof did not close.
    match play_file(file, area) {
        Ok(length) => length as i64,
        Err(fault) => match write_refusal(area, fault) {
            Ok(length) => length as i64,
            Err(_) => NO_ROOM,
        },
    }
}
