// Reading the header and the steps of a schedule from an input.
ghost use Rattle.std.specs.Prelude.{◌≡◌, ℕ, List, length};
ghost use Rattle.numbers.specs.Cursors.{Reads, ReadsOn, left};
ghost use Rattle.schedule.specs.Headers.{plain_header, servers_of};
ghost use Rattle.schedule.specs.Reading.{ReadsMeaning, body_of, header_number, header_of, plain_next, step_of, value_of};
ghost use Rattle.schedule.specs.Steps.{plain_step};
ghost use Rattle.schedule.specs.declared.headers.WiringKind.{WiringKind as Wired};
ghost use Rattle.values.specs.Kinds.{kind_of};
ghost use Rattle.values.specs.declared.kind.Kind.{Kind as ValueKind};
ghost use Rattle.schedule.specs.Headers.{wiring_of};
ghost use Rattle.std.specs.Borrow.{Bor};

use crate::faults::{BadValue, StepFault};
use crate::headers::{Format, Header, LEAST_SERVERS, MOST_SERVERS, WiringKind};
use crate::steps::{Code, Step};
use numbers::cursor::Cursor;
use values::fault::ValueFault;
use values::kind::Kind;

// What is left of a schedule. Every call reads one part or tells the fault; a fault leaves the reader where it was. Clauses name the cursor's two fields, as the cursor's own do.
#[derive(Clone, Copy)]
pub struct Reader<'a> {
    cursor: Cursor<'a>,
}

impl<'a> Reader<'a> {
    // A reader at the front of an input.
    pub fn new(input: &'a [u8]) -> Reader<'a>
        ensures { (left result.cursor ≡ input.now) × (result.cursor.total ≡ length input.now) }
    {
        Reader {
            cursor: Cursor::new(input),
        }
    }

    // Reads the header.
    pub fn header(&mut self) -> Result<Header<'a>, StepFault>
        ensures { Reads plain_header result (header_of self.old.cursor.total (left self.old.cursor)) self.old.cursor self.new.cursor }
    {
        let mut ahead = *self;
        let header = ahead.header_parts()?;
        *self = ahead;
        Ok(header)
    }

    // Reads the next step of this format; there is none at the end of the input.
    pub fn step(&mut self, format: Format) -> Result<Option<Step<'a>>, StepFault>
        ensures { Reads plain_next result (step_of self.old.cursor.total format.kind format.wiring (left self.old.cursor)) self.old.cursor self.new.cursor }
    {
        let place = self.cursor.place();
        let mut ahead = *self;
        let Some(byte) = ahead.cursor.byte() else {
            return Ok(None);
        };
        let code = Code::under(format.wiring, byte).ok_or(StepFault::UnknownCode { place })?;
        let step = ahead.body(format.kind, code)?;
        *self = ahead;
        Ok(Some(step))
    }

    // Reads the parts of a header in their order.
    fn header_parts(&mut self) -> Result<Header<'a>, StepFault>
        ensures { ReadsOn plain_header result (header_of self.old.cursor.total (left self.old.cursor)) self.old.cursor self.new.cursor }
    {
        let servers = self.header_number(ring_size)?;
        let kind = self.header_number(|number| Kind::try_from(number).ok())?;
        let wiring = self.header_number(|number| WiringKind::try_from(number).ok())?;
        let first = self.value(kind)?;
        Ok(Header {
            servers,
            kind,
            wiring,
            first,
        })
    }

    // Reads a number of the header and answers its meaning; one that has none is out of range.
    fn header_number<T: Drop, F: FnOnce(u32) -> Option<T>>(
        &mut self,
        meaning: F,
    ) -> Result<T, StepFault>
        requires { F.IsAlwaysCallable meaning }
        ensures { ReadsMeaning (F.post meaning) result self.old.cursor self.new.cursor }
    {
        let place = self.cursor.place();
        let number = self.cursor.number()?;
        meaning(number).ok_or(StepFault::OutOfRange { place })
    }

    // Reads a value of a kind; its bytes stay in the input.
    fn value(&mut self, kind: Kind) -> Result<&'a [u8], BadValue>
        ensures { ReadsOn (λ (v : Bor (List ℕ)). v.now) result (value_of self.old.cursor.total kind (left self.old.cursor)) self.old.cursor self.new.cursor }
    {
        let place = self.cursor.place();
        let bytes = self.cursor.bytes(kind.byte_len()).ok_or(BadValue {
            fault: ValueFault::Cut,
            place,
        })?;
        kind.check(bytes)
            .map_err(|fault| BadValue { fault, place })?;
        Ok(bytes)
    }

    // Reads what follows the code of a step.
    fn body(&mut self, kind: Kind, code: Code) -> Result<Step<'a>, StepFault>
        ensures { ReadsOn plain_step result (body_of self.old.cursor.total kind code (left self.old.cursor)) self.old.cursor self.new.cursor }
    {
        let step = match code {
            Code::Write => Step::Write {
                client: self.cursor.number()?,
                server: self.cursor.number()?,
                value: self.value(kind)?,
            },
            Code::Read => Step::Read {
                client: self.cursor.number()?,
                server: self.cursor.number()?,
            },
            Code::GiveUp => Step::GiveUp {
                client: self.cursor.number()?,
            },
            Code::Turn => Step::Turn {
                server: self.cursor.number()?,
            },
            Code::Deliver => Step::Deliver {
                server: self.cursor.number()?,
            },
            Code::Crash => Step::Crash {
                server: self.cursor.number()?,
            },
            Code::Notice => Step::Notice {
                server: self.cursor.number()?,
                crashed: self.cursor.number()?,
            },
            Code::Pick => Step::Pick {
                pick: self.cursor.number()?,
            },
        };
        Ok(step)
    }
}

// So many servers, if a ring can have them.
fn ring_size(number: u32) -> Option<u32>
    ensures { result ≡ servers_of number }
{
    (LEAST_SERVERS..=MOST_SERVERS)
        .contains(&number)
        .then_some(number)
}
