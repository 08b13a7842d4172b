ghost use Rattle.script_tree.specs.ScriptParts.{script_of_parts};
ghost use Rattle.script_tree.specs.Fitting.{IsScript};

use crate::stmt::ThreadText;
use pct_ask::{Deal, NameKind, Names, NumberList};
use std::alloc::{AllocError as NoMemory, Global};

/// A script of one of the versions 1 to 3. Objects and threads go by their places among their
/// names.
#[derive(Debug, Drop)]
pub struct Script {
    pub version: u32,
    pub names: Names,
    /// The first value of each variable.
    pub vars: NumberList,
    /// The first value of each semaphore.
    pub sems: NumberList,
    /// How many threads meet at each barrier.
    pub barriers: NumberList,
    pub threads: Vec<ThreadText>,
    ghost sound: { IsScript (script_of_parts version names vars sems barriers threads.items) },
}

impl Script {
    ghost use Rattle.std.specs.Prelude.{◌≡◌, IfOk};
    ghost use Rattle.script_tree.specs.ScriptSeen.{plain_script};
    ghost use Rattle.script_tree.specs.DealOf.{IsDealOf};

    /// The names of its threads and objects.
    pub fn names(&self) -> &Names
        ensures { result.now ≡ self.now.names }
    {
        &self.names
    }

    /// What its threads share.
    pub fn deal(&self, alloc: Global) -> Result<Deal, NoMemory>
        ensures { IfOk result (λ deal. IsDealOf (plain_script self.now) deal) }
    {
        let names = &self.names;
        Ok(Deal {
            threads: names.count(NameKind::Thread),
            vars: self.vars.copy(alloc)?,
            mutexes: names.count(NameKind::Mutex),
            conds: names.count(NameKind::Cond),
            sems: self.sems.copy(alloc)?,
            barriers: self.barriers.copy(alloc)?,
            rwlocks: names.count(NameKind::RwLock),
        })
    }
}
