// The table's memory, and the facts that hold of it between calls.
ghost use Rattle.std.specs.Prelude.{◌≡◌, ℕ, ◌<◌, ◌≤◌, length};
ghost use Rattle.table.specs.Table.{cells_of, counts_of};

use server::Server;
use servers::SERVERS;

// The servers of the ring: those below `size` belong to it. All eight stand in the list, of the ring or not, as the rules speak of each number, and the memory is fixed.
#[derive(Drop)]
pub struct Fleet {
    pub(crate) size: usize,
    pub(crate) list: [Server; SERVERS],
    ghost few: { size ≤ 8 },
    ghost sized: { length list ≡ 8 },
    // Each server has masks of 256 rows and counts of 8 groups.
    ghost rows: { (p : ℕ) → p < 8 → length (cells_of list p) ≡ 256 },
    ghost groups: { (p : ℕ) → p < 8 → length (counts_of list p) ≡ 8 },
}
