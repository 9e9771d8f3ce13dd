// A file up to its bodies.
ghost use Rattle.std.specs.Prelude.{◌≡◌, ◌+◌, ◌*◌, ◌≤◌, length, take, drop};

use super::count::Count;

// A file that is not too long and has its whole table.
#[derive(Clone, Copy)]
pub(crate) struct TabledFile<'a> {
    pub(crate) bytes: &'a [u8],
    pub(crate) count: Count,
    ghost whole: { 1 + 5 * count.entries ≤ length bytes.now },
    ghost short: { length bytes.now ≤ 49152 },
}

impl<'a> TabledFile<'a> {
    pub(crate) fn table(&self) -> &'a [u8]
        ensures { result.now ≡ take (5 * self.now.count.entries) (drop 1 self.now.bytes.now) }
    {
        &self.bytes[1..self.count.table_end()]
    }

    pub(crate) fn bodies(&self) -> &'a [u8]
        ensures { result.now ≡ drop (1 + 5 * self.now.count.entries) self.now.bytes.now }
    {
        &self.bytes[self.count.table_end()..]
    }
}
