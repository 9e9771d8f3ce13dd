// A short text that needs no allocation.
ghost use Rattle.std.specs.Prelude.{◌≡◌, ◌≤◌, length};

mod contents;

// How many bytes a text can hold.
pub const LIMIT: usize = 32;

// The text is the used bytes, which stand first; the others have no meaning. Without a heap it is a fixed
// array with a length; and since it can be copied it has no model, which would have to give them all back.
#[derive(Clone, Copy)]
pub struct Text {
    bytes: [u8; LIMIT],
    used: usize,
    ghost whole: { length bytes ≡ 32 },
    ghost within: { used ≤ 32 },
}
