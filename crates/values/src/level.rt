// The first kind of value, a level: a number in four bytes.
ghost use Rattle.std.specs.Prelude.{◌≡◌, Some};
ghost use Rattle.values.specs.Levels.{level_bytes, level_fits, level_text, level_value};
ghost use Rattle.values.specs.declared.kind.Kind.TheVariants.{Level as LevelKind};
ghost use Rattle.std.proofs.Common.{rules};

use crate::fault::{Unwritten, ValueFault};
use crate::value::Value;
use std::fmt;

// A level.
#[derive(Clone, Copy, PartialEq, Eq, Debug)]
pub struct Level {
    pub height: u32,
}

impl Value for Level {
    const LEN: usize = 4;

    const NUMBER: u32 = 1;

    ghost LEN = { 4 };

    ghost NUMBER = { 1 };

    ghost kind = { LevelKind };

    ghost fits = { level_fits };

    ghost bytes = { level_bytes };

    ghost value = { level_value };

    ghost long = { Prim.search rules };

    ghost numbered = { Prim.search rules };

    ghost sized = { Prim.search rules };

    ghost faultless = { Prim.search rules };

    ghost reads_back = { Prim.search rules };

    ghost read_fits = { Prim.search rules };

    ghost writes_back = { Prim.search rules };

    fn read(src: &[u8]) -> Result<Level, ValueFault> {
        let bytes = src.first_chunk().ok_or(ValueFault::Cut)?;
        let height = u32::from_le_bytes(*bytes);
        Ok(Level { height })
    }

    fn write(self, out: &mut [u8]) -> Result<(), Unwritten> {
        let front = out.first_chunk_mut().ok_or(Unwritten::Short)?;
        *front = self.height.to_le_bytes();
        Ok(())
    }
}

impl fmt::Display for Level {
    ghost output = { λ v. Some (level_text v) };

    fn fmt<W: fmt::Write>(&self, f: &mut fmt::Formatter<W>) -> fmt::Result {
        write!(f, "{}", self.height)
    }
}
