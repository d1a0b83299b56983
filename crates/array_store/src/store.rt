//! What reading and writing cells does, for whoever executes statements.

ghost use Rattle.std.specs.Prelude.{◌≡◌, ◌<◌, IsTrue, IsOk, OnOk, OnErr};
ghost use Rattle.meaning.specs.Stores.{World, known, LeavesRead, after_write};

use meaning::cell::Cell;
use std::alloc::AllocError;

/// Where the values of cells are kept. A LOGICAL is kept as 0 or 1.
///
/// That the number of cells stays follows from the other clauses; it stands beside them for
/// callers.
pub trait Store {
    /// What a store holds.
    ghost world: { Self → World };

    /// The value of a cell: what was written, else what the store stands on. A store that marks
    /// what it shows may fail to mark this cell, and then knows from then on that it did.
    fn read(&mut self, cell: Cell) -> i32
        requires { cell.0 < (world self.old).cells }
        ensures value { result ≡ known (world self.old) cell.0 }
        ensures after { LeavesRead cell.0 (world self.old) (world self.new) }
        ensures cells { (world self.new).cells ≡ (world self.old).cells };

    /// The value of an element of an array by its cell, as `read` tells it. A store may find
    /// elements otherwise than variables, which have the first cells.
    #[inline(always)]
    fn read_element(&mut self, cell: Cell) -> i32
        requires { cell.0 < (world self.old).cells }
        ensures value { result ≡ known (world self.old) cell.0 }
        ensures after { LeavesRead cell.0 (world self.old) (world self.new) }
        ensures cells { (world self.new).cells ≡ (world self.old).cells }
    {
        self.read(cell)
    }

    /// Writes a value to a cell. The `AllocError` comes where memory was refused, and nothing is
    /// written then.
    fn write(&mut self, cell: Cell, value: i32) -> Result<(), AllocError>
        requires { cell.0 < (world self.old).cells }
        ensures ok { OnOk result (world self.new ≡ after_write cell.0 value (world self.old)) }
        ensures err { OnErr result (world self.new ≡ world self.old) }
        ensures sure { IsTrue (world self.old).sure → IsOk result }
        ensures cells { (world self.new).cells ≡ (world self.old).cells };
}
