ghost use Rattle.std.specs.Prelude.{◌≡◌, ◌<◌, length, slice_get, IfOk, OnOk, OnErr, option_copied};
ghost use Rattle.std.specs.Prelude.{false, true};
ghost use Rattle.std.specs.Str.{bytes_eq};
ghost use Rattle.pct_ask.specs.Words.{is_name, is_among};
ghost use Rattle.pct_ask.specs.NameLists.{kind_in, no_names, list_of, with_name, all_names};
ghost use Rattle.pct_ask.specs.NameLists.{place_of, AreNames};
ghost use Rattle.pct_ask.specs.declared.limits.TheConstants.{MAX_OBJECTS};

use crate::sequence::Sequence;
use std::alloc::{AllocError as NoMemory, Global};
use std::marker::Model;

/// What a name stands for.
#[derive(Clone, Copy, Debug, PartialEq, Eq, Hash)]
pub enum NameKind {
    Thread,
    Var,
    Mutex,
    Cond,
    Sem,
    Barrier,
    RwLock,
}

fn says(word: &[u8], other: &[u8]) -> bool
    ensures { result ≡ bytes_eq word.now other.now }
{
    word == other
}

impl NameKind {
    /// The kind that a word declares.
    pub fn of(word: &[u8]) -> Option<NameKind>
        ensures { result ≡ kind_in word.now }
    {
        if says(word, b"thread") {
            Some(NameKind::Thread)
        } else if says(word, b"var") {
            Some(NameKind::Var)
        } else if says(word, b"mutex") {
            Some(NameKind::Mutex)
        } else if says(word, b"cond") {
            Some(NameKind::Cond)
        } else if says(word, b"sem") {
            Some(NameKind::Sem)
        } else if says(word, b"barrier") {
            Some(NameKind::Barrier)
        } else if says(word, b"rwlock") {
            Some(NameKind::RwLock)
        } else {
            None
        }
    }
}

type Name = Sequence<u8>;

type NameList = Sequence<Name>;

/// The names of a test's threads and objects. Those of all kinds share one space.
#[derive(Debug, Drop)]
pub struct Names {
    threads: NameList,
    vars: NameList,
    mutexes: NameList,
    conds: NameList,
    sems: NameList,
    barriers: NameList,
    rwlocks: NameList,
}

impl Model for Names {
    ghost use Rattle.pct_ask.specs.NameLists.{NameLists, AreNames};

    ghost Value = { NameLists };

    ghost view = { λ n. record {
      threads = n.threads;
      vars = n.vars;
      mutexes = n.mutexes;
      conds = n.conds;
      sems = n.sems;
      barriers = n.barriers;
      rwlocks = n.rwlocks;
    } };

    ghost invariant = { λ n. AreNames (record {
      threads = n.threads;
      vars = n.vars;
      mutexes = n.mutexes;
      conds = n.conds;
      sems = n.sems;
      barriers = n.barriers;
      rwlocks = n.rwlocks;
    }) };
}

impl Names {
    /// No names yet.
    pub fn new(alloc: Global) -> Self
        ensures { result ≡ no_names }
    {
        Names {
            threads: Sequence::new(alloc),
            vars: Sequence::new(alloc),
            mutexes: Sequence::new(alloc),
            conds: Sequence::new(alloc),
            sems: Sequence::new(alloc),
            barriers: Sequence::new(alloc),
            rwlocks: Sequence::new(alloc),
        }
    }

    /// Gives the next object of a kind its name and answers its place, from 0. An `Err` leaves the
    /// names as they were.
    pub fn add(&mut self, alloc: Global, kind: NameKind, name: &[u8]) -> Result<u32, NoMemory>
        requires lawful { is_name 1 name.now ≡ true }
        requires fresh { is_among name.now (all_names self.old) ≡ false }
        requires room { length (list_of kind self.old) < MAX_OBJECTS }
        ensures place { IfOk result (λ place. place ≡ length (list_of kind self.old)) }
        ensures added { OnOk result (self.new ≡ with_name kind name.now self.old) }
        ensures unchanged { OnErr result (self.new ≡ self.old) }
    {
        let place = self.list(kind).len() as u32;
        let own = Sequence::from_vec(Vec::from_slice(alloc, name)?);
        match kind {
            NameKind::Thread => self.threads.try_push(own)?,
            NameKind::Var => self.vars.try_push(own)?,
            NameKind::Mutex => self.mutexes.try_push(own)?,
            NameKind::Cond => self.conds.try_push(own)?,
            NameKind::Sem => self.sems.try_push(own)?,
            NameKind::Barrier => self.barriers.try_push(own)?,
            NameKind::RwLock => self.rwlocks.try_push(own)?,
        }
        Ok(place)
    }

    /// How many names a kind has.
    pub fn count(&self, kind: NameKind) -> u32
        ensures count { result ≡ length (list_of kind self.now) }
        ensures lawful { AreNames self.now }
    {
        self.list(kind).len() as u32
    }

    /// A name's place in the list of a kind, from 0.
    pub fn find(&self, kind: NameKind, name: &[u8]) -> Option<u32>
        ensures place { result ≡ place_of name.now (list_of kind self.now) }
        ensures lawful { AreNames self.now }
    {
        let place = place_of(self.list(kind).as_slice(), name)?;
        Some(place as u32)
    }

    /// The name at a place, from 0.
    pub fn name(&self, kind: NameKind, id: u32) -> Option<&[u8]>
        ensures name { option_copied result ≡ slice_get (list_of kind self.now) id }
        ensures lawful { AreNames self.now }
    {
        let name = self.list(kind).as_slice().get(id as usize)?;
        Some(name.as_slice())
    }

    /// Whether a name stands for anything, of whatever kind.
    pub fn contains(&self, name: &[u8]) -> bool
        ensures found { result ≡ is_among name.now (all_names self.now) }
        ensures lawful { AreNames self.now }
    {
        has(&self.threads, name)
            || has(&self.vars, name)
            || has(&self.mutexes, name)
            || has(&self.conds, name)
            || has(&self.sems, name)
            || has(&self.barriers, name)
            || has(&self.rwlocks, name)
    }

    fn list(&self, kind: NameKind) -> &NameList
        ensures list { result.now ≡ list_of kind self.now }
        ensures lawful { AreNames self.now }
    {
        match kind {
            NameKind::Thread => &self.threads,
            NameKind::Var => &self.vars,
            NameKind::Mutex => &self.mutexes,
            NameKind::Cond => &self.conds,
            NameKind::Sem => &self.sems,
            NameKind::Barrier => &self.barriers,
            NameKind::RwLock => &self.rwlocks,
        }
    }
}

fn place_of(names: &[Name], name: &[u8]) -> Option<usize>
    ensures { result ≡ place_of name.now names.now }
{
    names.iter().position(|other| name == other.as_slice())
}

fn has(names: &NameList, name: &[u8]) -> bool
    ensures { result ≡ is_among name.now names.now }
{
    names
        .as_slice()
        .iter()
        .any(|other| name == other.as_slice())
}
