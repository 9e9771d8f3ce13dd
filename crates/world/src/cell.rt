// The slots' cells, which the caller lends.
#[derive(Clone, Copy, PartialEq, Eq, Debug)]
pub enum Mark {
    Empty,
    Full,
}

// An element and its mark. An emptied cell keeps its element, which an Option would lose.
#[derive(Clone, Copy, PartialEq, Eq, Debug)]
pub struct Cell<T> {
    pub element: T,
    pub mark: Mark,
}
