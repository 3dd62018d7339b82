// What the calls of the ring change at one server. A number above 7 names no server, and changes nothing.
// The servers are changed by index and not through `get_mut`: of what that lends out a proof would know the length alone.
// No type holds the numbers below 8 alone: the calls take any number, and a narrower type would ask more of them.
ghost use Rattle.std.specs.Prelude.{◌≡◌, ◌<◌, ◌≤◌, true};
ghost use Rattle.fleet.specs.View.{ChangedAt, servers};
ghost use Rattle.model.specs.ServerChanges.{servers_counted_if, servers_crashed, servers_held_if, servers_noticed, servers_raised, servers_released_prewrite_if, servers_released_write, servers_started};
ghost use Rattle.journal.specs.View.{view};
ghost use Rattle.operation.specs.Tags.{tag_key};
ghost use Rattle.servers.specs.Sets.{join, one};
ghost use Rattle.table.specs.Table.{servers_kept};

use crate::fleet::Fleet;
use journal::Journal;
use messages::{Phase, Row};
use operation::Tag;
use servers::{SERVERS, ServerSet};

impl Fleet {
    // The server holds the row, and rows whose tags are not above that row's are no longer pending there.
    pub fn hold(&mut self, server: usize, row: Row, journal: &Journal)
        ensures { ChangedAt server self.old (servers_held_if true (servers self.old) (view journal.now).tag server row.0) self.new }
    {
        if server < SERVERS {
            self.list[server].hold(row, journal);
        }
    }

    // The server raises its returned tag to this one if that is higher.
    pub fn raise_returned(&mut self, server: usize, tag: Tag)
        ensures { ChangedAt server self.old (servers_raised (servers self.old) server (tag_key tag)) self.new }
    {
        if server < SERVERS {
            self.list[server].raise_returned(tag);
        }
    }

    // The mask joins that of the row's pre-write or write that the server is to forward. Row, phase and mask and no `Message`, as for `send`.
    pub fn keep(&mut self, server: usize, row: Row, phase: Phase, mask: ServerSet)
        ensures { ChangedAt server self.old (servers_kept phase (servers self.old) server row.0 mask.bits) self.new }
    {
        if server < SERVERS {
            self.list[server].keep(row, phase, mask);
        }
    }

    // The row's pre-write leaves what the server is to forward. Gives its mask with the server added, which joins pending if the row is news.
    // Not one function with the release of a write: a write is never news, and its mask joins nothing.
    pub fn release_prewrite(&mut self, server: usize, row: Row, is_news: bool) -> ServerSet
        ensures mask { server < 8 → result.bits ≡ join ((servers self.old).forward_prewrite server row.0) (one server) }
        ensures after { ChangedAt server self.old (servers_released_prewrite_if is_news (servers self.old) server row.0) self.new }
        ensures no_mask { 8 ≤ server → result.bits ≡ 0 }
    {
        if server < SERVERS {
            self.list[server].release_prewrite(row, server, is_news)
        } else {
            ServerSet::empty()
        }
    }

    // The row's write leaves what the server is to forward. Gives its mask with the server added.
    pub fn release_write(&mut self, server: usize, row: Row) -> ServerSet
        ensures mask { server < 8 → result.bits ≡ join ((servers self.old).forward_write server row.0) (one server) }
        ensures after { ChangedAt server self.old (servers_released_write (servers self.old) server row.0) self.new }
        ensures no_mask { 8 ≤ server → result.bits ≡ 0 }
    {
        if server < SERVERS {
            self.list[server].release_write(row, server)
        } else {
            ServerSet::empty()
        }
    }

    // The row's write starts at the server: its pending mask is the server alone.
    pub fn start(&mut self, server: usize, row: Row)
        ensures { ChangedAt server self.old (servers_started (servers self.old) server row.0) self.new }
    {
        if server < SERVERS {
            self.list[server].start(row, ServerSet::only(server));
        }
    }

    // The server has chosen the group for its turn; `some_entry` says whether it has an entry to forward. A number above 7 names no group.
    pub fn count_turn(&mut self, server: usize, group: usize, some_entry: bool)
        ensures group { group < 8 → ChangedAt server self.old (servers_counted_if some_entry (servers self.old) server group) self.new }
        ensures no_group { 8 ≤ group → ChangedAt server self.old (servers self.old) self.new }
    {
        if server < SERVERS {
            self.list[server].count_turn(group, some_entry);
        }
    }

    // The server stops, and its masks are empty.
    pub fn crash(&mut self, server: usize)
        ensures { ChangedAt server self.old (servers_crashed (servers self.old) server) self.new }
    {
        if server < SERVERS {
            self.list[server].stop();
        }
    }

    // The server has noticed the crash of the other one. A number above 7 names no server to notice.
    pub fn notice(&mut self, server: usize, other: usize)
        ensures other { other < 8 → ChangedAt server self.old (servers_noticed (servers self.old) server other) self.new }
        ensures no_other { 8 ≤ other → ChangedAt server self.old (servers self.old) self.new }
    {
        if server < SERVERS {
            self.list[server].notice(other);
        }
    }
}
