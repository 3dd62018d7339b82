// Writing a number into a buffer.
ghost use Rattle.std.specs.Prelude.{◌≡◌, ◌+◌, ◌<◌, ◌≤◌, length};
ghost use Rattle.numbers.specs.Laying.{laid_or_kept, lay_at, write_number_answer};
ghost use Rattle.numbers.specs.Numbers.{number_bytes, number_limit};

use crate::faults::WriteRefusal;

// The largest number that has bytes.
pub const LARGEST: u32 = 2_097_151;

// One group has fewer values than this, and two groups fewer than the next.
const ONE_GROUP: u32 = 128;

const TWO_GROUPS: u32 = 16_384;

// How many bytes a number takes, the largest as many as any above it.
pub fn number_len(number: u32) -> usize
    ensures { (result ≡ length (number_bytes number)) × (result ≤ 3) }
{
    if number < ONE_GROUP {
        1
    } else if number < TWO_GROUPS {
        2
    } else {
        3
    }
}

// Writes a number at a place and answers how many bytes it takes. Bytes before and behind them stay, and a refusal leaves all as it was.
// The buffer is lent whole, with a place, since callers go on to write behind.
pub fn write_number(out: &mut [u8], at: usize, number: u32) -> Result<usize, WriteRefusal>
    ensures answer { result ≡ write_number_answer at number out.old }
    ensures after { out.new ≡ laid_or_kept result at (number_bytes number) out.old }
{
    if number > LARGEST {
        return Err(WriteRefusal::NotWritable);
    }
    let length = number_len(number);
    if out.len().saturating_sub(at) < length {
        return Err(WriteRefusal::NoRoom);
    }
    put_groups(out, at, number);
    Ok(length)
}

// Writes the groups of a number at a place where there is room for them.
#[tactic(auto, using(crate::proofs::Laying::set_lays_one, crate::proofs::Laying::set_lays_two, crate::proofs::Laying::set_lays_three))]
fn put_groups(out: &mut [u8], at: usize, number: u32)
    requires { (number < number_limit) × (at + length (number_bytes number) ≤ length out.old) }
    ensures { out.new ≡ lay_at at (number_bytes number) out.old }
{
    if number < ONE_GROUP {
        out[at] = number as u8;
        return;
    }
    out[at] = (number % ONE_GROUP + ONE_GROUP) as u8;
    if number < TWO_GROUPS {
        out[at + 1] = (number / ONE_GROUP) as u8;
        return;
    }
    out[at + 1] = (number / ONE_GROUP % ONE_GROUP + ONE_GROUP) as u8;
    out[at + 2] = (number / TWO_GROUPS) as u8;
}
