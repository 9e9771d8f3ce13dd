// The bytes that stand for a kind of elements, of banks or of bodies.
ghost use Rattle.std.specs.Prelude.{◌≡◌, Some};
ghost use Rattle.std.specs.Option.{ok_or};
ghost use Rattle.runfile.specs.Kinds.{element_kind, element_word, bank_kind, bank_word, body_kind};

use std::fmt;

// What the elements of a run are.
#[derive(Clone, Copy, PartialEq, Eq, Debug)]
pub enum ElementKind {
    Number = 1,
    Letter = 2,
}

// The bank of turns that a run is played on.
#[derive(Clone, Copy, PartialEq, Eq, Debug)]
pub enum BankKind {
    Word = 1,
    Nibble = 2,
}

// What a body of a file holds.
#[derive(Clone, Copy, PartialEq, Eq, Debug)]
pub(crate) enum BodyKind {
    Shape = 1,
    Program = 2,
    LeadIn = 3,
    Main = 4,
}

// A byte that stands for no kind, or no tone.
#[derive(Clone, Copy, PartialEq, Eq, Debug)]
pub struct UnknownKind(pub u8);

// Each kind has impls of its own, whose arms are its variants.
impl TryFrom<u8> for ElementKind {
    type Error = UnknownKind;

    ghost try_from_gives = { λ code made. made ≡ ok_or (element_kind code) (record { 0 = code }) };

    fn try_from(code: u8) -> Result<ElementKind, UnknownKind> {
        match code {
            1 => Ok(ElementKind::Number),
            2 => Ok(ElementKind::Letter),
            _ => Err(UnknownKind(code)),
        }
    }
}

impl TryFrom<u8> for BankKind {
    type Error = UnknownKind;

    ghost try_from_gives = { λ code made. made ≡ ok_or (bank_kind code) (record { 0 = code }) };

    fn try_from(code: u8) -> Result<BankKind, UnknownKind> {
        match code {
            1 => Ok(BankKind::Word),
            2 => Ok(BankKind::Nibble),
            _ => Err(UnknownKind(code)),
        }
    }
}

impl fmt::Display for ElementKind {
    ghost output = { λ kind. Some (element_word kind) };

    fn fmt<W: fmt::Write>(&self, f: &mut fmt::Formatter<W>) -> fmt::Result {
        let word = match self {
            ElementKind::Number => "number",
            ElementKind::Letter => "letter",
        };
        f.write_str(word)
    }
}

impl fmt::Display for BankKind {
    ghost output = { λ kind. Some (bank_word kind) };

    fn fmt<W: fmt::Write>(&self, f: &mut fmt::Formatter<W>) -> fmt::Result {
        let word = match self {
            BankKind::Word => "word",
            BankKind::Nibble => "nibble",
        };
        f.write_str(word)
    }
}

impl TryFrom<u8> for BodyKind {
    type Error = UnknownKind;

    ghost try_from_gives = { λ code made. made ≡ ok_or (body_kind code) (record { 0 = code }) };

    fn try_from(code: u8) -> Result<BodyKind, UnknownKind> {
        match code {
            1 => Ok(BodyKind::Shape),
            2 => Ok(BodyKind::Program),
            3 => Ok(BodyKind::LeadIn),
            4 => Ok(BodyKind::Main),
            _ => Err(UnknownKind(code)),
        }
    }
}
