// A refusal with its place.

// What a place counts is the refusal's to say: bytes of a file, entries of a schedule, bytes of a report.
#[derive(Clone, Copy, PartialEq, Eq, Debug)]
pub struct Fault<R> {
    pub refusal: R,
    pub place: usize,
}
