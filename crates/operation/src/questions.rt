// What the journal asks of one operation.
ghost use Rattle.operation.specs.Parts.{answer_mark, is_answered, is_due, is_open, is_open_of, is_open_read, is_queued_at, is_returned, is_write, row_given, state_tag};
ghost use Rattle.operation.specs.Tags.{tag_key};
ghost use Rattle.std.specs.Prelude.{◌≡◌};

use crate::operation::{Operation, State};
use crate::tag::Tag;
use messages::Row;

impl Operation {
    // The client that asked.
    pub fn client(self) -> u8
        ensures { result ≡ self.client }
    {
        self.client
    }

    // Whether it is a write.
    pub fn is_write(self) -> bool
        ensures { result ≡ is_write self.state }
    {
        match self.state {
            State::Queued | State::Started(_) | State::Written { .. } => true,
            State::Unused | State::Waiting { .. } | State::Told { .. } => false,
        }
    }

    // Whether it was answered.
    pub fn is_answered(self) -> bool
        ensures { result ≡ is_answered self.state }
    {
        match self.state {
            State::Written { .. } | State::Told { .. } => true,
            State::Unused | State::Queued | State::Started(_) | State::Waiting { .. } => false,
        }
    }

    // Whether it has begun and was neither answered nor given up.
    pub fn is_open(self) -> bool
        ensures { result ≡ is_open self }
    {
        match self.state {
            State::Queued | State::Started(_) | State::Waiting { .. } => !self.given_up,
            State::Unused | State::Written { .. } | State::Told { .. } => false,
        }
    }

    // Whether it is an open operation of the client.
    pub fn is_open_of(self, client: u8) -> bool
        ensures { result ≡ is_open_of self client }
    {
        self.is_open() && self.client == client
    }

    // Whether it is an open read.
    pub fn is_open_read(self) -> bool
        ensures { result ≡ is_open_read self }
    {
        self.is_open() && !self.is_write()
    }

    // The mark of its answer; 0 before it was answered. No Option, here and in the next two: the rules give every operation a mark, a tag and a row.
    pub fn answer_mark(self) -> u32
        ensures { result ≡ answer_mark self.state }
    {
        match self.state {
            State::Written { mark, .. } | State::Told { mark, .. } => mark,
            State::Unused | State::Queued | State::Started(_) | State::Waiting { .. } => 0,
        }
    }

    // The tag of a write that has started; the first tag where there is none.
    pub fn tag(self) -> Tag
        ensures { result ≡ state_tag self.state }
    {
        match self.state {
            State::Started(tag) | State::Written { tag, .. } => tag,
            State::Unused | State::Queued | State::Waiting { .. } | State::Told { .. } =>
                Tag::FIRST,
        }
    }

    // The row that an answered read gave; row 0 of any other operation.
    pub fn row_given(self) -> Row
        ensures { result.0 ≡ row_given self.state }
    {
        match self.state {
            State::Told { row, .. } => row,
            State::Unused
            | State::Queued
            | State::Started(_)
            | State::Written { .. }
            | State::Waiting { .. } => Row(0),
        }
    }

    // Whether it is a write queued at the server, given up or not.
    pub fn is_queued_at(self, server: u8) -> bool
        ensures { result ≡ is_queued_at self server }
    {
        match self.state {
            State::Queued => self.server == server,
            _ => false,
        }
    }

    // Whether it is an open read at the server whose threshold is not above the tag.
    pub fn is_due(self, server: u8, tag: Tag) -> bool
        ensures { result ≡ is_due self server (tag_key tag) }
    {
        match self.state {
            State::Waiting { threshold } => !self.given_up
                && self.server == server
                && threshold.is_up_to(tag),
            _ => false,
        }
    }

    // Whether it is an open write started at the server with a tag not above the returned one. Of another state than a read that is due, and with the tag on the other side.
    pub fn is_returned(self, server: u8, returned: Tag) -> bool
        ensures { result ≡ is_returned self server (tag_key returned) }
    {
        match self.state {
            State::Started(tag) => !self.given_up
                && self.server == server
                && tag.is_up_to(returned),
            _ => false,
        }
    }
}
