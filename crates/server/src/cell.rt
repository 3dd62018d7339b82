// The masks that a server keeps of one row, and their changes.
ghost use Rattle.server.specs.Cells.{cell_keeps, cell_pends, cell_with_pending, cell_without, forwarded, no_cell};
ghost use Rattle.std.specs.Prelude.{◌≡◌};

use messages::Phase;
use servers::ServerSet;
use std::mem;

// Of one row at one server: the mask under which it is pending, and those of the pre-write and the write that wait to be forwarded.
// An empty mask means that there is none.
#[derive(Clone, Copy)]
pub struct Cell {
    pub(crate) pending: ServerSet,
    pub(crate) prewrite: ServerSet,
    pub(crate) write: ServerSet,
}

impl Cell {
    // Nothing is kept of the row.
    pub fn empty() -> Cell
        ensures { result ≡ no_cell }
    {
        Cell {
            pending: ServerSet::empty(),
            prewrite: ServerSet::empty(),
            write: ServerSet::empty(),
        }
    }

    // The mask joins the pending one.
    pub(crate) fn join_pending(&mut self, mask: ServerSet)
        ensures { self.new ≡ cell_pends self.old mask }
    {
        self.pending = self.pending.union(mask);
    }

    // The row is pending under this mask; under the empty one it is not.
    pub(crate) fn set_pending(&mut self, mask: ServerSet)
        ensures { self.new ≡ cell_with_pending self.old mask }
    {
        self.pending = mask;
    }

    // The mask joins that of the pre-write or of the write to forward.
    pub(crate) fn keep(&mut self, phase: Phase, mask: ServerSet)
        ensures { self.new ≡ cell_keeps phase self.old mask }
    {
        match phase {
            Phase::PreWrite => self.prewrite = self.prewrite.union(mask),
            Phase::Write => self.write = self.write.union(mask),
        }
    }

    // The pre-write or the write is taken out; gives its mask.
    pub(crate) fn take(&mut self, phase: Phase) -> ServerSet
        ensures mask { result ≡ forwarded phase self.old }
        ensures after { self.new ≡ cell_without phase self.old }
    {
        match phase {
            Phase::PreWrite => mem::replace(&mut self.prewrite, ServerSet::empty()),
            Phase::Write => mem::replace(&mut self.write, ServerSet::empty()),
        }
    }
}
