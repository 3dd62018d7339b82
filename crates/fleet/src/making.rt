// Fleets of new servers.
ghost use Rattle.std.specs.Prelude.{◌≡◌, ◌<◌, ◌≤◌};
ghost use Rattle.fleet.specs.View.{servers};
ghost use Rattle.model.specs.ServerChanges.{new_servers};

use crate::fleet::Fleet;
use servers::SERVERS;
use table::new_servers;

impl Fleet {
    // The fleet of a ring that was never made: it has no server.
    pub fn empty() -> Fleet
        ensures size { result.size ≡ 0 }
        ensures kept { servers result ≡ new_servers 0 }
    {
        Fleet {
            size: 0,
            list: new_servers(0),
        }
    }

    // Makes the fleet new, with so many servers. It cannot have more than 8: then nothing changes.
    pub fn reset(&mut self, size: usize)
        ensures size { size ≤ 8 → self.new.size ≡ size }
        ensures kept { size ≤ 8 → servers self.new ≡ new_servers size }
        ensures too_many { 8 < size → self.new ≡ self.old }
    {
        if size <= SERVERS {
            self.list = new_servers(size);
            self.size = size;
        }
    }
}
