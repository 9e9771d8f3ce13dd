// The table of contents: an entry a body, of a kind byte and four bytes of the body's length.
ghost use Rattle.std.specs.Prelude.{◌≡◌, ◌+◌, ◌*◌, length, drop};
ghost use Rattle.std.specs.Iterator.{YieldsFirst, item_count};
ghost use Rattle.runfile.specs.Files.{table};
ghost use Rattle.runfile.specs.Tables.{bodied, entries, parts, right, tabled};

use super::bodies::Bodies;
use super::count::Count;
use super::fault::{Fault, FileRefusal};
use super::kinds::BodyKind;
use super::tabled::TabledFile;
use faults::numbered::Numbered;

#[derive(Clone, Copy)]
pub struct Entry {
    // None where the kind byte stands for no kind.
    kind: Option<BodyKind>,
    size: u32,
}

// The entries of a table, one after another.
#[derive(Drop)]
struct Entries<'a>(&'a [u8]);

impl Iterator for Entries<'_> {
    type Item = Entry;

    ghost next_gives = { YieldsFirst (λ s. entries s.0.now) };

    ghost remaining = { item_count (λ s. entries s.0.now) };

    fn next(&mut self) -> Option<Entry> {
        let [kind, a, b, c, d, rest @ ..] = self.0 else {
            return None;
        };
        self.0 = rest;
        let kind = BodyKind::try_from(*kind).ok();
        let size = u32::from_be_bytes([*a, *b, *c, *d]);
        Some(Entry { kind, size })
    }
}

// Whether an entry has its kind, and the shape's entry its length of four bytes.
fn is_right(entry: Entry, index: usize, count: Count) -> bool
    ensures { result ≡ right count.entries index entry }
{
    entry.kind == Some(count.kind_at(index)) && (index != 0 || entry.size == 4)
}

// Refuses a table at its first wrong entry.
pub(crate) fn check_table(file: &TabledFile) -> Result<(), Fault>
    ensures { result ≡ tabled file.now.count.entries 0 (entries (table file.now.count.entries file.now.bytes.now)) }
{
    for (index, entry) in Entries(file.table()).enumerate() {
        if !is_right(entry, index, file.count) {
            return Err(FileRefusal::Contents.at(1 + 5 * index));
        }
    }
    Ok(())
}

// The bodies that a table speaks of, up to the end of the file.
pub(crate) fn cut_bodies<'a>(file: &TabledFile<'a>) -> Result<Bodies<'a>, Fault>
    ensures { parts file.now.count.entries result ≡ bodied (entries (table file.now.count.entries file.now.bytes.now)) (drop (1 + 5 * file.now.count.entries) file.now.bytes.now) (length file.now.bytes.now) }
{
    let end = file.bytes.len();
    let mut left = file.bodies();
    let mut cuts = [&left[0..0]; 67];
    for (index, entry) in Entries(file.table()).enumerate() {
        let size = entry.size as usize;
        let (body, more) = left.split_at_checked(size).ok_or(FileRefusal::Cut.at(end))?;
        cuts[index] = body;
        left = more;
    }
    if !left.is_empty() {
        return Err(FileRefusal::Tail.at(end - left.len()));
    }
    Ok(Bodies { cuts })
}
