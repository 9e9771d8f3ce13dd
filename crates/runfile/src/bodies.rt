// The bodies of a file as parts of it.
ghost use Rattle.std.specs.Prelude.{◌≡◌, length};

// In the order of the table, which has at most 67 entries; those past the table's end are empty. Without a heap they
// lie in an array of fixed length.
#[derive(Clone, Copy)]
pub struct Bodies<'a> {
    pub(crate) cuts: [&'a [u8]; 67],
    ghost long: { length cuts ≡ 67 },
}
