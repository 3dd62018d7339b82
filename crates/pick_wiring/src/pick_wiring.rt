// The pick wiring; its calls are in wiring_calls.rt.
use crate::pile::Pile;
use masks::ServerLanes;

// A wiring that hands out message (pick number mod count) of a server, counted from 0 by row, then phase.
#[derive(Clone, Copy)]
pub struct PickWiring {
    pub(crate) lanes: ServerLanes<Pile>,
    pub(crate) number: usize,
}
