// The line wiring; its calls are in wiring_calls.rt.
use crate::queue::Queue;
use masks::ServerLanes;

// A wiring that hands out the messages of a server in the order in which they came.
#[derive(Clone, Copy)]
pub struct LineWiring {
    pub(crate) lanes: ServerLanes<Queue>,
}
