// What the tests write, and how they look at an area.
use history::entry::{Entry, Kind};
use report::counts::Counts;
use runfile::letter::{Letter, Tone};
use runfile::number::Number;
use std::iter;

pub(crate) fn push<E: Copy>(thread: u8, ticket: u16, element: E) -> Entry<E> {
    Entry {
        kind: Kind::Push,
        thread,
        ticket,
        element,
    }
}

pub(crate) fn pop<E: Copy>(thread: u8, ticket: u16, element: E) -> Entry<E> {
    let kind = Kind::Pop;
    Entry {
        kind,
        ..push(thread, ticket, element)
    }
}

pub(crate) fn number(value: u32) -> Number {
    Number { value }
}

pub(crate) fn plain(sender: u8, serial: u32) -> Letter {
    Letter {
        sender,
        tone: Tone::Plain,
        serial,
    }
}

pub(crate) fn urgent(sender: u8, serial: u32) -> Letter {
    let tone = Tone::Urgent;
    Letter {
        tone,
        ..plain(sender, serial)
    }
}

pub(crate) fn counts(pushes: u16, pops: u16, waiting: usize) -> Counts {
    Counts {
        pushes,
        pops,
        waiting,
    }
}

// Where the last line ends that stands whole in the first `room` bytes of the text.
pub(crate) fn whole_lines(text: &[u8], room: usize) -> usize {
    text.iter()
        .take(room)
        .rposition(|byte| *byte == b'\n')
        .map_or(0, |last| last + 1)
}

// Whether the area holds the first `size` bytes of the text, and dots everywhere else.
pub(crate) fn holds(area: &[u8], text: &[u8], size: usize) -> bool {
    let dots = iter::repeat(&b'.');
    let wanted = text.iter().take(size).chain(dots);
    area.iter().zip(wanted).all(|(byte, wanted)| byte == wanted)
}
