//! Parts of the lines that writers put.

ghost use Rattle.std.specs.Prelude.{◌≡◌, ◌∷◌, ◌++◌, OnOk, OnErr};
ghost use Rattle.pct_ask.specs.Numbers.{number_text};
ghost use Rattle.pct_ask.specs.NameLists.{list_of};
ghost use Rattle.pct_ask.specs.TraceText.{name_at};
ghost use Rattle.pct_ask.specs.VerdictPieces.{IsStartOf};

use crate::names::{NameKind, Names};
use crate::number::write_number;
use std::alloc::AllocError as NoMemory;

/// The name at a place, from 0, and no bytes where there is none.
pub fn name_at(names: &Names, kind: NameKind, place: u32) -> &[u8]
    ensures { result.now ≡ name_at (list_of kind names.now) place }
{
    names.name(kind, place).unwrap_or(b"")
}

/// Writes a space and a word at the end.
pub fn write_spaced_word(word: &[u8], out: &mut Vec<u8>) -> Result<(), NoMemory>
    ensures written { OnOk result (out.new.items ≡ out.old.items ++ 32 ∷ word.now) }
    ensures begun { OnErr result (IsStartOf out.old.items out.new.items) }
{
    out.push(b' ')?;
    out.extend_from_slice(word)
}

/// Writes a space and a number's canonical decimal at the end.
pub fn write_spaced_number(value: i128, out: &mut Vec<u8>) -> Result<(), NoMemory>
    ensures { OnOk result (out.new.items ≡ out.old.items ++ 32 ∷ number_text value) }
{
    out.push(b' ')?;
    write_number(value, out)
}
