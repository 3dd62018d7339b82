// The keys by which a turn chooses: those of groups, and those of what may wait or not. Entries go by tags, which are keys themselves.
ghost use Rattle.choices.specs.Keys.{LeastWaiting, waits};
ghost use Rattle.std.specs.Ordering.{is_lt};
ghost use Rattle.std.specs.Prelude.{◌≡◌};

use search::least;

// A group that waits: its turn count, and its number, which decides between equal counts.
#[derive(Clone, Copy, Debug, PartialEq, Eq, PartialOrd, Ord)]
pub struct GroupKey {
    pub(crate) count: u16,
    pub(crate) group: u8,
}

// What may wait or not. No Option, since None comes before every Some: the least of a row is to be one that waits.
#[derive(Clone, Copy, Debug, PartialEq, Eq, PartialOrd, Ord)]
pub enum Candidate<K> {
    // It waits, with this key.
    Waits(K),
    // It does not wait, and ranks above all that does.
    Absent,
}

impl<K> Candidate<K> {
    // Whether it waits.
    fn waits(&self) -> bool
        ensures { result ≡ waits self.now }
    {
        matches!(self, Candidate::Waits(_))
    }
}

// The place of the least key of what waits, the first among equals; none where nothing waits.
pub(crate) fn least_waiting<K: Ord>(keys: &[Candidate<K>]) -> Option<usize>
    ensures { LeastWaiting (λ a b. is_lt (K.cmp a b)) keys.now result }
{
    let place = least(keys)?;
    if keys[place].waits() {
        Some(place)
    } else {
        None
    }
}
