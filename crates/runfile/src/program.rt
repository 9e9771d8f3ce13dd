// A thread's program: operations one after another.
ghost use Rattle.std.specs.Prelude.{◌≡◌, ◌+◌, ◌^◌, ◌<◌, ◌≤◌, map, length, IfOk};
ghost use Rattle.std.specs.Iterator.{YieldsFirst, item_count};
ghost use Rattle.std.specs.List.{flat_map};
ghost use Rattle.runfile.specs.Chains.{sound};
ghost use Rattle.runfile.specs.Programs.{operations, programmed, readings};

use super::element::Element;
use super::fault::Fault;
use super::operation::{Operation, read_operation};
use std::marker::PhantomData;

// What is read of a program from here on: its operations up to the first wrong one, whose fault is the last item.
#[derive(Drop)]
pub struct Operations<'a, E> {
    rest: &'a [u8],
    place: usize,
    elements: PhantomData<E>,
    ghost within: { place + length rest.now < 2 ^ 64 },
}

impl<'a, E: Element> Operations<'a, E> {
    // Of a program by itself: places count from its start.
    pub fn of(program: &'a [u8]) -> Operations<'a, E>
        ensures { (result.rest.now ≡ program.now) × (result.place ≡ 0) }
    {
        Operations {
            rest: program,
            place: 0,
            elements: PhantomData,
        }
    }
}

impl<E: Element> Iterator for Operations<'_, E> {
    type Item = Result<Operation<E>, Fault>;

    ghost next_gives = { YieldsFirst (λ s. readings E.Element.format 0 s.rest.now s.place) };

    ghost remaining = { item_count (λ s. readings E.Element.format 0 s.rest.now s.place) };

    fn next(&mut self) -> Option<Result<Operation<E>, Fault>> {
        if self.rest.is_empty() {
            return None;
        }
        let read = read_operation::<E>(self.rest, self.place);
        // Behind a wrong operation nothing is read. A match, since `map_or` would hide this case in an argument.
        let width = match &read {
            Ok(operation) => operation.byte_count(),
            Err(_) => self.rest.len(),
        };
        self.rest = &self.rest[width..];
        self.place += width;
        Some(read)
    }
}

// Refuses a program at its first wrong operation. The bound is a `requires`, since the place is what `check_programs`
// sums up, where a struct of bytes and place would be made with this same fact.
fn check_program<E: Element>(program: &[u8], place: usize) -> Result<(), Fault>
    requires { place + length program.now ≤ 49152 }
    ensures { result ≡ sound (operations E.Element.format 0 program.now place) }
{
    let all = Operations::<E> {
        rest: program,
        place,
        elements: PhantomData,
    };
    for operation in all {
        operation?;
    }
    Ok(())
}

// Refuses programs that stand one after another from `place` on, at the first wrong operation; answers where they end.
// `at` is the place of the next one; as a fold its `?` would be in a closure, which is no plainer. The bound is of the
// programs' bytes together, which no one value here has.
pub(crate) fn check_programs<E: Element>(programs: &[&[u8]], place: usize) -> Result<usize, Fault>
    requires { place + length (flat_map (λ p. p) (map (λ p. p.now) programs.now)) ≤ 49152 }
    ensures value { result ≡ programmed E.Element.format (map (λ p. p.now) programs.now) place }
    ensures end { IfOk result (λ e. e ≡ place + length (flat_map (λ p. p) (map (λ p. p.now) programs.now))) }
{
    let mut at = place;
    for program in programs {
        check_program::<E>(program, at)?;
        at += program.len();
    }
    Ok(at)
}
