// Two lawful files that the tests start from.

// Two slots, two threads, numbers, the word bank. The table's entries stand at 1, 6, 11, 16 and 21, and the bodies
// begin at 26: the shape, a push of 7 at 30, a pop at 35, a lead-in of two bytes at 36, a main schedule of twelve at 38.
pub const NUMBERS: [u8; 50] = [
    5, 1, 0, 0, 0, 4, 2, 0, 0, 0, 5, 2, 0, 0, 0, 1, 3, 0, 0, 0, 2, 4, 0, 0, 0, 12, 2, 2, 1, 1,
    0x50, 0, 0, 0, 7, 0x44, 1, 1, 0, 0, 1, 0, 0, 0, 1, 1, 1, 1, 0, 1,
];

// One slot, one thread, letters, the nibble bank. The entries stand at 1, 6, 11 and 16, and the bodies begin at 21:
// the shape, a pop at 25, a push of an urgent letter at 26, an empty lead-in, a main schedule of one byte at 33.
pub const LETTERS: [u8; 34] = [
    4, 1, 0, 0, 0, 4, 2, 0, 0, 0, 8, 3, 0, 0, 0, 0, 4, 0, 0, 0, 1, 1, 1, 2, 2, 0x44, 0x50, 9, 1, 0,
    0, 0, 5, 0,
];
