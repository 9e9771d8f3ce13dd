// A whole listing.
ghost use Rattle.std.specs.Prelude.{◌≡◌, ◌++◌, IfOk, OnOk};
ghost use Rattle.runfile.specs.Files.{contents_of, parsed, programs_in};
ghost use Rattle.listing.specs.Listings.{contents_text, head_lines, listed, program_lines, programs_text, refusal_line};

use super::lines::{append_program, append_schedule};
use faults::numbered::Numbered;
use runfile::element::Element;
use runfile::fault::Fault;
use runfile::file::read_run;
use runfile::header::Header;
use runfile::kinds::ElementKind;
use runfile::letter::Letter;
use runfile::number::Number;
use runfile::runs::RunFile;
use std::alloc::{AllocError, Global};

// The shape, the kind of elements, and the kind of bank.
fn append_head(out: &mut Vec<u8>, header: &Header) -> Result<(), AllocError>
    ensures { OnOk result (out.new.items ≡ out.old.items ++ head_lines header.now) }
{
    let slots = header.slots;
    let threads = header.threads;
    let element = header.element;
    let bank = header.bank;
    let lines = format!(in *out.allocator();
        "slots {slots} threads {threads}\nelement {element}\nbank {bank}\n"
    )?;
    out.extend_from_slice(lines.as_bytes())
}

fn append_refusal(out: &mut Vec<u8>, fault: Fault) -> Result<(), AllocError>
    ensures { OnOk result (out.new.items ≡ out.old.items ++ refusal_line fault) }
{
    let number = fault.refusal.number();
    let place = fault.place;
    let line = format!(in *out.allocator(); "refused file {number} {place}\n")?;
    out.extend_from_slice(line.as_bytes())
}

// The programs of all threads, in order.
fn append_programs<E: Element>(out: &mut Vec<u8>, run: &RunFile) -> Result<(), AllocError>
    ensures { OnOk result (out.new.items ≡ out.old.items ++ program_lines E.Element.format E.Element.printed 0 (programs_in run.now.header.threads (contents_of run.now).bodies)) }
{
    for (thread, program) in run.programs().iter().enumerate() {
        append_program::<E>(out, thread, program)?;
    }
    Ok(())
}

// The same, by the kind of the run's elements.
fn append_kind_of_programs(out: &mut Vec<u8>, run: &RunFile) -> Result<(), AllocError>
    ensures { OnOk result (out.new.items ≡ out.old.items ++ programs_text run.now.header.element (programs_in run.now.header.threads (contents_of run.now).bodies)) }
{
    // Each arm is at its own type of elements, for which a closure has no parameter.
    match run.header.element {
        ElementKind::Number => append_programs::<Number>(out, run),
        ElementKind::Letter => append_programs::<Letter>(out, run),
    }
}

fn append_contents(out: &mut Vec<u8>, run: &RunFile) -> Result<(), AllocError>
    ensures { OnOk result (out.new.items ≡ out.old.items ++ contents_text (contents_of run.now)) }
{
    append_head(out, &run.header)?;
    append_kind_of_programs(out, run)?;
    append_schedule(out, b"lead-in", run.lead_in())?;
    append_schedule(out, b"main", run.main())
}

// What a file holds, or the line that says why and where it is refused.
pub fn list_file(heap: Global, file: &[u8]) -> Result<Vec<u8>, AllocError>
    ensures { IfOk result (λ v. v.items ≡ listed (parsed file.now)) }
{
    let mut out = Vec::new(heap);
    match read_run(file) {
        Ok(run) => append_contents(&mut out, &run)?,
        Err(fault) => append_refusal(&mut out, fault)?,
    }
    Ok(out)
}
