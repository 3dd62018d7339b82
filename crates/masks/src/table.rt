// The table of masks; its methods are in methods.rt.
ghost use Rattle.std.specs.Prelude.{◌≡◌, length};

use messages::ROWS;
use servers::ServerSet;

// The masks of a row's two messages, empty where none waits.
#[derive(Clone, Copy)]
pub struct RowMasks {
    pub(crate) pre_write: ServerSet,
    pub(crate) write: ServerSet,
}

// The masks of one server's messages, for each row.
#[derive(Clone, Copy)]
pub struct MaskTable {
    pub(crate) rows: [RowMasks; ROWS],
    ghost sized: { length rows ≡ 256 },
}
