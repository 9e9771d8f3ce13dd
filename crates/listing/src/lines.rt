// The lines of a listing.
ghost use Rattle.std.specs.Prelude.{◌≡◌, ◌++◌, OnOk};
ghost use Rattle.std.specs.List.{flat_map};
ghost use Rattle.runfile.specs.Programs.{operations_of};
ghost use Rattle.listing.specs.Listings.{operation_text, program_line, schedule_line};

use runfile::element::Element;
use runfile::operation::Operation;
use runfile::program::Operations;
use std::alloc::AllocError;
use text::holder::Text;

fn append_operation<E: Element>(
    out: &mut Vec<u8>,
    operation: &Operation<E>,
) -> Result<(), AllocError>
    ensures { OnOk result (out.new.items ≡ out.old.items ++ operation_text E.Element.printed operation.now) }
{
    match operation {
        Operation::Push(element) => {
            out.extend_from_slice(b" push ")?;
            let text = element.text();
            out.extend_from_slice(text.as_bytes())
        }
        Operation::Pop => out.extend_from_slice(b" pop"),
    }
}

pub(crate) fn append_schedule(
    out: &mut Vec<u8>,
    word: &[u8],
    schedule: &[u8],
) -> Result<(), AllocError>
    ensures { OnOk result (out.new.items ≡ out.old.items ++ schedule_line word.now schedule.now) }
{
    out.extend_from_slice(word)?;
    for thread in schedule {
        out.push(b' ')?;
        // A `String` of its own for each byte of a schedule would take most of a long listing's time.
        let mut number = Text::new();
        // At most three digits, so the text has room.
        let _ = number.push(*thread as u64);
        out.extend_from_slice(number.as_bytes())?;
    }
    out.extend_from_slice(b"\n")
}

// The operations of a program, as far as they are right. (`map_while(Result::ok)` over the iterator is refused in what
// the check generates.)
fn append_operations<E: Element>(out: &mut Vec<u8>, program: &[u8]) -> Result<(), AllocError>
    ensures { OnOk result (out.new.items ≡ out.old.items ++ flat_map (operation_text E.Element.printed) (operations_of E.Element.format 0 program.now)) }
{
    for read in Operations::<E>::of(program) {
        let Ok(operation) = read else {
            break;
        };
        append_operation(out, &operation)?;
    }
    Ok(())
}

pub(crate) fn append_program<E: Element>(
    out: &mut Vec<u8>,
    thread: usize,
    program: &[u8],
) -> Result<(), AllocError>
    ensures { OnOk result (out.new.items ≡ out.old.items ++ program_line E.Element.printed thread (operations_of E.Element.format 0 program.now)) }
{
    let head = format!(in *out.allocator(); "program {thread}")?;
    out.extend_from_slice(head.as_bytes())?;
    append_operations::<E>(out, program)?;
    out.extend_from_slice(b"\n")
}
