// A table of eight servers. What its servers keep, in the words of the rules, is defined in specs/Table.antt; proofs/OneServer.antt shows what a change of one of them does to that.
#![tactic(auto)]

ghost use Rattle.std.specs.Prelude.{◌≡◌, ℕ, ◌<◌, length, nat_lt};
ghost use Rattle.server.specs.Changes.{new_server};
ghost use Rattle.table.specs.Table.{server_at};

use server::Server;
use servers::SERVERS;
use std::array;

// A table of new servers, of which those below the size stand.
pub fn new_servers(size: usize) -> [Server; SERVERS]
    ensures sized { length result ≡ 8 }
    ensures all_new { (p : ℕ) → p < 8 → server_at result p ≡ new_server (nat_lt p size) }
{
    array::from_fn(|server| Server::new(server < size))
}
