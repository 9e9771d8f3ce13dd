// The machine: a bank of turns and a table of threads.
ghost use Rattle.std.specs.Prelude.{◌≡◌, ◌<◌, length, OnOk};
ghost use Rattle.machine.specs.Rows.{hand_of, row_of};

use turns::shape::Shape;
use world::refusal::Refusal;
use world::table::Table;

// Cells, hands and record are the caller's, in memory of a fixed size, lent to each call that needs
// them.
#[derive(Drop)]
pub struct Machine<B> {
    pub(crate) bank: B,
    pub(crate) table: Table,
}

impl<B> Machine<B> {
    // The shape that the machine was opened with last.
    pub fn shape(&self) -> Shape
        ensures { result ≡ self.now.table.shape }
    {
        self.table.shape
    }

    // Where the thread's row is; refused to a stranger.
    pub(crate) fn row(&self, thread: u8) -> Result<usize, Refusal>
        ensures value { result ≡ row_of self.now.table thread }
        ensures within { OnOk result (thread < self.now.table.shape.threads) }
    {
        if thread >= self.table.shape.threads() {
            return Err(Refusal::Stranger);
        }
        Ok(thread as usize)
    }

    // Where the thread's row and its hand are; refused to a stranger, then where there are not as
    // many hands as threads.
    pub(crate) fn hand<T>(&self, thread: u8, hands: &[T]) -> Result<usize, Refusal>
        ensures value { result ≡ hand_of self.now.table thread hands.now }
        ensures within { OnOk result (thread < self.now.table.shape.threads) }
        ensures fit { OnOk result (length hands.now ≡ self.now.table.shape.threads) }
    {
        let row = self.row(thread)?;
        if hands.len() != self.table.shape.threads() as usize {
            return Err(Refusal::Misfit);
        }
        Ok(row)
    }
}
