// The second kind of value, a mark: a trace number in two bytes and a name of six capital letters or digits.
ghost use Rattle.std.specs.Prelude.{◌≡◌, Some};
ghost use Rattle.values.specs.Kinds.{all_allowed, allowed};
ghost use Rattle.values.specs.Marks.{mark_bytes, mark_fits, mark_text, mark_value};
ghost use Rattle.values.specs.declared.kind.Kind.TheVariants.{Mark as MarkKind};
ghost use Rattle.values.specs.Names.{mark_is_faultless, mark_reads_back};
ghost use Rattle.std.proofs.Common.{rules};

use crate::fault::{Unwritten, ValueFault};
use crate::value::Value;
use std::{fmt, str};

// How many bytes a name takes.
const NAME_LEN: usize = 6;

// A mark.
#[derive(Clone, Copy, PartialEq, Eq, Debug)]
pub struct Mark {
    pub trace: u16,
    pub name: [u8; NAME_LEN],
}

// Whether a byte is a capital letter or a digit.
fn is_allowed(byte: u8) -> bool
    ensures { result ≡ allowed byte }
{
    matches!(byte, b'A'..=b'Z' | b'0'..=b'9')
}

// Whether each byte is a capital letter or a digit.
#[tactic(auto, unfolding(crate::specs::Kinds::all_allowed))]
fn are_allowed(text: &[u8]) -> bool
    ensures { result ≡ all_allowed text.now }
{
    text.iter().all(|byte| is_allowed(*byte))
}

impl Value for Mark {
    const LEN: usize = 8;

    const NUMBER: u32 = 2;

    ghost LEN = { 8 };

    ghost NUMBER = { 2 };

    ghost kind = { MarkKind };

    ghost fits = { mark_fits };

    ghost bytes = { mark_bytes };

    ghost value = { mark_value };

    ghost long = { Prim.search rules };

    ghost numbered = { Prim.search rules };

    ghost sized = { Prim.search rules };

    ghost faultless = { λ x rest h. mark_is_faultless x rest h };

    ghost reads_back = { λ x rest h. mark_reads_back x rest h };

    ghost read_fits = { Prim.search rules };

    ghost writes_back = { Prim.search rules };

    fn read(src: &[u8]) -> Result<Mark, ValueFault> {
        let (trace, rest) = src.split_first_chunk().ok_or(ValueFault::Cut)?;
        let name = rest.first_chunk().ok_or(ValueFault::Cut)?;
        if !are_allowed(name) {
            return Err(ValueFault::NotAllowed);
        }
        let trace = u16::from_le_bytes(*trace);
        Ok(Mark { trace, name: *name })
    }

    fn write(self, out: &mut [u8]) -> Result<(), Unwritten> {
        if !are_allowed(&self.name) {
            return Err(Unwritten::NotAllowed);
        }
        let (trace, rest) = out.split_first_chunk_mut().ok_or(Unwritten::Short)?;
        let name = rest.first_chunk_mut().ok_or(Unwritten::Short)?;
        *trace = self.trace.to_le_bytes();
        *name = self.name;
        Ok(())
    }
}

// A name that is no text is not printed: `fmt` then answers an error.
impl fmt::Display for Mark {
    ghost output = { λ v. Some (mark_text v) };

    fn fmt<W: fmt::Write>(&self, f: &mut fmt::Formatter<W>) -> fmt::Result {
        let name = str::from_utf8(&self.name).map_err(|_| fmt::Error)?;
        write!(f, "{}-{name}", self.trace)
    }
}
