// The interface of a kind of value: its number, its length, its bytes.
ghost use Rattle.std.specs.Prelude.{◌≡◌, ℕ, Bool, true, List, ◌++◌, length, take, None};
ghost use Rattle.values.specs.Kinds.{AllBytes, kind_number, value_fault, value_length};
ghost use Rattle.values.specs.Written.{kept_unless, over, read_as, write_answer};
ghost use Rattle.values.specs.declared.kind.Kind.{Kind as KindOf};

use crate::fault::{Unwritten, ValueFault};

// A kind of value. Code over every kind takes its length and its number from here.
pub trait Value: Copy {
    // How many bytes a value takes.
    const LEN: usize;

    // The kind's number in a schedule's header.
    const NUMBER: u32;

    // Clauses name the two constants by these.
    ghost LEN: { ℕ };

    ghost NUMBER: { ℕ };

    // Which kind it is.
    ghost kind: { KindOf };

    // Whether the value has bytes of its kind.
    ghost fits: { Self → Bool };

    // The bytes of a value that fits.
    ghost bytes: { Self → List ℕ };

    // The value at the front of bytes with which nothing is wrong.
    ghost value: { List ℕ → Self };

    // The value at the front of these bytes, or what is wrong with them.
    fn read(src: &[u8]) -> Result<Self, ValueFault>
        ensures { result ≡ read_as (value_fault kind src.now) (value src.now) };

    // Writes the value to the front of a buffer; what is behind stays, and a refusal leaves all as it was.
    fn write(self, out: &mut [u8]) -> Result<(), Unwritten>
        ensures answer { result ≡ write_answer (fits self) (value_length kind) (length out.old) }
        ensures after { out.new ≡ kept_unless result (over (bytes self) out.old) out.old };

    // A value takes as many bytes as its kind says.
    ghost long: { LEN ≡ value_length kind };

    // The number is the kind's.
    ghost numbered: { NUMBER ≡ kind_number kind };

    // A value has as many bytes as its kind says.
    ghost sized: { (x : Self) → fits x ≡ true → length (bytes x) ≡ value_length kind };

    // Nothing is wrong with the bytes of a value, whatever stands behind them.
    ghost faultless: { (x : Self) (rest : List ℕ) → fits x ≡ true → value_fault kind (bytes x ++ rest) ≡ None };

    // Reading what a kind writes returns the value.
    ghost reads_back: { (x : Self) (rest : List ℕ) → fits x ≡ true → value (bytes x ++ rest) ≡ x };

    // What is read from bytes fits.
    ghost read_fits: { (bs : List ℕ) → AllBytes bs → value_fault kind bs ≡ None → fits (value bs) ≡ true };

    // Writing what was read returns the bytes.
    ghost writes_back: { (bs : List ℕ) → AllBytes bs → value_fault kind bs ≡ None → bytes (value bs) ≡ take (value_length kind) bs };
}
