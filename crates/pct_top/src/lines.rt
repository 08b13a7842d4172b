//! Lines that commands write: each writer puts one line behind what is written.

ghost use Rattle.std.specs.Prelude.{◌≡◌, [], ◌∷◌, ◌++◌, OnOk, decimal};
ghost use Rattle.pct_ask.specs.VerdictText.{thread_name, named_verdict, verdict_words, HasNames};
ghost use Rattle.pct_ask.specs.VerdictText.{IsWholeVerdict};
ghost use Rattle.pct_ask.specs.TraceText.{line_text};

use pct_ask::{
    NameKind, Names, Verdict, name_at, write_spaced_number, write_spaced_word, write_verdict,
};
use std::alloc::AllocError as NoMemory;

/// A verdict behind a word.
pub fn push_verdict(
    out: &mut Vec<u8>,
    names: &Names,
    word: &str,
    verdict: &Verdict,
) -> Result<(), NoMemory>
    requires threads { HasNames names.now verdict.now }
    requires whole { IsWholeVerdict verdict.now }
    ensures { OnOk result (out.new.items
        ≡ out.old.items
        ++ line_text (word.now ∷ verdict_words (named_verdict names.now verdict.now))) }
{
    out.extend_from_slice(word.as_bytes())?;
    out.push(b' ')?;
    write_verdict(verdict, names, out)?;
    out.push(b'\n')?;
    Ok(())
}

/// A thread behind a word.
pub fn push_thread(
    out: &mut Vec<u8>,
    names: &Names,
    word: &str,
    thread: u32,
) -> Result<(), NoMemory>
    ensures { OnOk result (out.new.items
        ≡ out.old.items ++ line_text (word.now ∷ thread_name names.now thread ∷ [])) }
{
    out.extend_from_slice(word.as_bytes())?;
    write_spaced_word(name_at(names, NameKind::Thread, thread), out)?;
    out.push(b'\n')?;
    Ok(())
}

/// A count behind a word.
pub fn push_size(out: &mut Vec<u8>, word: &str, count: usize) -> Result<(), NoMemory>
    ensures { OnOk result (out.new.items
        ≡ out.old.items ++ line_text (word.now ∷ decimal count ∷ [])) }
{
    out.extend_from_slice(word.as_bytes())?;
    write_spaced_number(count as i128, out)?;
    out.push(b'\n')?;
    Ok(())
}

/// The same of a smaller count.
pub fn push_count(out: &mut Vec<u8>, word: &str, count: u32) -> Result<(), NoMemory>
    ensures { OnOk result (out.new.items
        ≡ out.old.items ++ line_text (word.now ∷ decimal count ∷ [])) }
{
    push_size(out, word, count as usize)
}

/// A number behind a space.
pub fn push_number(out: &mut Vec<u8>, number: u32) -> Result<(), NoMemory>
    ensures { OnOk result (out.new.items ≡ out.old.items ++ 32 ∷ decimal number) }
{
    write_spaced_number(i128::from(number), out)
}
