// What one server keeps; how it changes is in changes.rt, and what is asked of it in questions.rt.
use crate::cell::Cell;
use messages::{ROWS, Row};
use operation::Tag;
use servers::{SERVERS, ServerSet};

// A server: whether it stands, its held row, its returned tag, the crashes that it has noticed, a turn count for each server, and of each row its masks.
#[derive(Clone, Copy)]
pub struct Server {
    pub(crate) standing: bool,
    pub(crate) held: Row,
    pub(crate) returned: Tag,
    pub(crate) noticed: ServerSet,
    pub(crate) turn_counts: [u16; SERVERS],
    pub(crate) cells: [Cell; ROWS],
}
