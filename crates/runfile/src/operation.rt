// An operation of a thread's program.
ghost use Rattle.std.specs.Prelude.{◌≡◌, ◌≤◌, length, IfOk};
ghost use Rattle.runfile.specs.Programs.{operation, wide};

use super::element::Element;
use super::fault::{Fault, FileRefusal};
use faults::numbered::Numbered;

#[derive(Clone, Copy, PartialEq, Eq, Debug)]
pub enum Operation<E> {
    Push(E),
    Pop,
}

impl<E: Element> Operation<E> {
    // How many bytes the operation has in a program.
    pub fn byte_count(&self) -> usize
        ensures { result ≡ wide E.Element.format.width self.now }
    {
        match self {
            Operation::Push(_) => 1 + E::WIDTH,
            Operation::Pop => 1,
        }
    }
}

// The operation at the start of `program`, which begins at the place `place` of the file.
pub fn read_operation<E: Element>(program: &[u8], place: usize) -> Result<Operation<E>, Fault>
    ensures value { result ≡ operation E.Element.format program.now place }
    ensures within { IfOk result (λ o. wide E.Element.format.width o ≤ length program.now) }
{
    match program {
        [0x50, bytes @ ..] => {
            let element = E::read(bytes, place)?;
            Ok(Operation::Push(element))
        }
        [0x44, ..] => Ok(Operation::Pop),
        _ => Err(FileRefusal::Body.at(place)),
    }
}
