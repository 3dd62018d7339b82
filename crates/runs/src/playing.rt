// Plays a list of calls, one after the other, on a new ring with a new wiring.
ghost use Rattle.runs.specs.Plays.{Plays};
ghost use Rattle.runs.specs.declared.playing.PlayError.TheVariants.{NoMemory, Refused};
ghost use Rattle.std.specs.Prelude.{◌≡◌};

use messages::ROWS;
use model::{Call, Outcome, Refusal};
use ring::Ring;
use std::alloc::{AllocError, AllocFailed, Global};
use wiring::Wiring;

// Why no list of outcomes comes back.
#[derive(Clone, Copy, Debug, PartialEq, Eq)]
pub enum PlayError {
    // no ring was made, for this reason, and no call played
    Refused(Refusal),
    // there was no memory for the outcomes
    NoMemory,
}

impl From<Refusal> for PlayError {
    ghost from_gives = { λ reason error. error ≡ Refused reason };

    // No ring was made.
    fn from(reason: Refusal) -> PlayError {
        PlayError::Refused(reason)
    }
}

impl From<AllocError> for PlayError {
    ghost from_gives = { λ failed error. error ≡ NoMemory };

    // There was no memory for the value rows.
    fn from(_failed: AllocError) -> PlayError {
        PlayError::NoMemory
    }
}

impl<T: Drop> From<AllocFailed<T>> for PlayError {
    ghost from_gives = { λ failed error. error ≡ NoMemory };

    // There was no memory for the outcomes.
    fn from(_failed: AllocFailed<T>) -> PlayError {
        PlayError::NoMemory
    }
}

// Makes a ring of so many servers with this first value, plays the calls in order, and gives what each told.
pub fn play<W: Wiring + Drop, V: Clone + Copy>(
    heap: Global,
    size: usize,
    first: V,
    calls: &[Call<V>],
) -> Result<Vec<Outcome>, PlayError>
    ensures { Plays result size first calls.now }
{
    let mut ring = Ring::empty();
    let mut wiring = W::new();
    let mut values = vec![in heap; first; ROWS]?;
    ring.make(values.as_mut_slice(), size, first)?;
    let mut outcomes = Vec::new(heap);
    for call in calls {
        let outcome = ring.call(&mut wiring, values.as_mut_slice(), *call);
        outcomes.push(outcome)?;
    }
    Ok(outcomes)
}
