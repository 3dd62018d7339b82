// A cursor over the bytes of an input: it reads bytes and numbers, and knows places.
ghost use Rattle.std.specs.Prelude.{◌≡◌, ℕ, length};
ghost use Rattle.numbers.specs.Cursors.{Reads, ReadsOn, TakesByte, TakesBytes, group_of, left, number_in, place_of};
ghost use Rattle.numbers.specs.Numbers.{number_at};

use crate::faults::NumberFault;

// The bit that says that another byte follows, and how many values the other bits have.
const TOP_BIT: u32 = 128;

// What is left of an input, and how long the whole input is. Clauses name the two fields: with a model of its own it could not be `Copy`, which its readers need to go back after a fault.
#[derive(Clone, Copy)]
pub struct Cursor<'a> {
    rest: &'a [u8],
    total: usize,
}

impl<'a> Cursor<'a> {
    // A cursor at the front of an input.
    pub fn new(input: &'a [u8]) -> Cursor<'a>
        ensures { (left result ≡ input.now) × (result.total ≡ length input.now) }
    {
        Cursor {
            rest: input,
            total: input.len(),
        }
    }

    // The place of the next byte.
    pub fn place(self) -> usize
        ensures { result ≡ place_of self.entry.total (left self.entry) }
    {
        self.total.saturating_sub(self.rest.len())
    }

    // Takes the next byte.
    pub fn byte(&mut self) -> Option<u8>
        ensures { TakesByte result self.old self.new }
    {
        self.rest.split_off_first().copied()
    }

    // Takes so many bytes; they stay where they are in the input.
    pub fn bytes(&mut self, count: usize) -> Option<&'a [u8]>
        ensures { TakesBytes count result self.old self.new }
    {
        self.rest.split_off(..count)
    }

    // Reads a number.
    pub fn number(&mut self) -> Result<u32, NumberFault>
        ensures { Reads (λ (n : ℕ). n) result (number_in self.old.total (left self.old)) self.old self.new }
    {
        let mut ahead = *self;
        let number = ahead.groups(self.place())?;
        *self = ahead;
        Ok(number)
    }

    // Reads the groups of a number that begins at the place.
    fn groups(&mut self, place: usize) -> Result<u32, NumberFault>
        ensures { ReadsOn (λ (n : ℕ). n) result (number_at place (left self.old)) self.old self.new }
    {
        let low = u32::from(self.group(place)?);
        if low < TOP_BIT {
            return Ok(low);
        }
        let middle = u32::from(self.group(place)?);
        if middle == 0 {
            return Err(NumberFault::NotShortest { place });
        }
        if middle < TOP_BIT {
            return Ok(low - TOP_BIT + middle * TOP_BIT);
        }
        let high = u32::from(self.group(place)?);
        if high == 0 {
            return Err(NumberFault::NotShortest { place });
        }
        if high < TOP_BIT {
            return Ok(low - TOP_BIT + (middle - TOP_BIT) * TOP_BIT + high * TOP_BIT * TOP_BIT);
        }
        Err(NumberFault::TooLong { place })
    }

    // Takes the next byte of a number that begins at the place.
    fn group(&mut self, place: usize) -> Result<u8, NumberFault>
        ensures { Reads (λ (n : ℕ). n) result (group_of place (left self.old)) self.old self.new }
    {
        self.byte().ok_or(NumberFault::Cut { place })
    }
}
