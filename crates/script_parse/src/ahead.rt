//! What is known of a whole text before its lines are read.

ghost use Rattle.std.specs.Prelude.{◌≡◌, ◌≤◌, ◌<◌, ◌-◌, ◌^◌, ◌++◌, ◌∷◌, [], List, ℕ, length, IfOk};
ghost use Rattle.std.specs.Prelude.{OnOk, Some};
ghost use Rattle.std.specs.Option.{option_map};
ghost use Rattle.std.specs.Str.{is_utf8};
ghost use Rattle.pct_ask.specs.Lines.{lines_of};
ghost use Rattle.pct_ask.specs.Tokens.{tokens_of};
ghost use Rattle.script_tree.specs.Lines.{just_thread, thread_in};
ghost use Rattle.script_parse.specs.Seen.{all_seen};
ghost use Rattle.script_parse.specs.Lookahead.{AreMapPlaces, HasPlaces, HasSeen, place_ahead};

use crate::expression::says;
use crate::token::{Token, tokens};
use pct_ask::split_lines;
use std::alloc::{AllocError as NoMemory, Global};
use std::collections::BTreeMap;

/// The threads that lines of the text begin, sound or not, how many lines it has, and whether all
/// of them are blank.
#[derive(Drop)]
pub struct Lookahead<'a> {
    places: BTreeMap<&'a [u8], u32>,
    threads: u32,
    lines: u32,
    blank: bool,
}

pub fn is_text(bytes: &[u8]) -> bool
    ensures { result ≡ is_utf8 bytes.now }
{
    str::from_utf8(bytes).is_ok()
}

/// The thread that a line begins, where the line has just the tokens for that.
fn thread_of<'a>(tokens: &[Token<'a>]) -> Option<&'a [u8]>
    ensures { option_map (λ name. name.now) result ≡ just_thread (all_seen tokens.now) }
{
    let [Token::Word(word), others @ ..] = tokens else {
        return None;
    };
    let [Token::Word(name)] = others else {
        return None;
    };
    if says(word, b"thread") {
        Some(name)
    } else {
        None
    }
}

/// The thread that a line begins, which was cut into these tokens.
fn begun_by<'a>(line: &[u8], tokens: &[Token<'a>]) -> Option<&'a [u8]>
    requires { tokens_of line.now ≡ Some (all_seen tokens.now) }
    ensures { option_map (λ name. name.now) result ≡ thread_in line.now }
{
    if is_text(line) {
        thread_of(tokens)
    } else {
        None
    }
}

/// Gives a name its place, unless it has one.
fn note_place<'a>(
    places: &mut BTreeMap<&'a [u8], u32>,
    name: &'a [u8],
    place: u32,
) -> Result<(), NoMemory>
    ensures { OnOk result
        ((names : List (List ℕ)) → place ≡ length names → AreMapPlaces places.old names
        → AreMapPlaces places.new (names ++ name.now ∷ [])) }
{
    if places.contains_key(name) {
        return Ok(());
    }
    places.insert(name, place)?;
    Ok(())
}

impl<'a> Lookahead<'a> {
    fn new(alloc: Global) -> Self
        ensures { HasSeen result [] }
    {
        Lookahead {
            places: BTreeMap::new(alloc),
            threads: 0,
            lines: 0,
            blank: true,
        }
    }

    /// Notes a thread's name, the place of which is that of the first line that begins it.
    fn note(&mut self, name: &'a [u8]) -> Result<(), NoMemory>
        requires { self.old.threads < 2 ^ 32 - 1 }
        ensures places { OnOk result
            ((names : List (List ℕ)) → HasPlaces self.old names
            → HasPlaces self.new (names ++ name.now ∷ [])) }
        ensures lines { OnOk result (self.new.lines ≡ self.old.lines) }
        ensures blank { OnOk result (self.new.blank ≡ self.old.blank) }
    {
        note_place(&mut self.places, name, self.threads)?;
        self.threads += 1;
        Ok(())
    }

    /// Notes one more line.
    fn see(&mut self, alloc: Global, line: &'a [u8]) -> Result<(), NoMemory>
        requires lines { self.old.lines < 2 ^ 32 - 1 }
        requires threads { self.old.threads < 2 ^ 32 - 1 }
        ensures { OnOk result
            ((texts : List (List ℕ)) → HasSeen self.old texts
            → HasSeen self.new (texts ++ line.now ∷ [])) }
    {
        self.lines += 1;
        let Some(tokens) = tokens(alloc, line)? else {
            self.blank = false;
            return Ok(());
        };
        self.blank = self.blank && tokens.is_empty();
        match begun_by(line, &tokens) {
            Some(name) => self.note(name),
            None => Ok(()),
        }
    }

    pub fn lines(&self) -> u32
        ensures { result ≡ self.now.lines }
    {
        self.lines
    }

    pub fn is_blank(&self) -> bool
        ensures { result ≡ self.now.blank }
    {
        self.blank
    }

    /// A thread's place among those of the text.
    pub fn place(&self, name: &[u8]) -> Option<u32>
        ensures { result ≡ place_ahead self.now name.now }
    {
        self.places.get(name).copied()
    }
}

/// Looks at all lines of a text.
pub fn look_ahead(alloc: Global, bytes: &[u8]) -> Result<Lookahead<'_>, NoMemory>
    requires { length bytes.now ≤ 1048576 }
    ensures { IfOk result (λ ahead. HasSeen ahead (lines_of bytes.now)) }
{
    let mut ahead = Lookahead::new(alloc);
    for line in split_lines(bytes) {
        ahead.see(alloc, line)?;
    }
    Ok(ahead)
}
