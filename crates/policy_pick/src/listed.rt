ghost use Rattle.std.specs.Prelude.{◌≡◌, [], IfOk};
ghost use Rattle.policy_pick.specs.Plan.{ByList};
ghost use Rattle.policy_pick.specs.Kept.{list_plan, ListStands};

use crate::chance::{Chance, Pick, pick_at};
use crate::policy::Policy;
use crate::walk::pick_by_number;
use std::alloc::{AllocError as NoMemory, Global};
use std::marker::Model;

/// The threads of a list go, one a step, and after the list nobody may.
#[derive(Debug, Drop)]
pub struct Listed {
    threads: Vec<u32>,
    taken: u32,
}

impl Model for Listed {
    ghost use Rattle.policy_pick.specs.Kept.{ListKept};

    ghost Value = { ListKept };

    ghost view = { λ l. record { listed = l.threads.items; taken = l.taken } };
}

impl Listed {
    pub fn new(alloc: Global, threads: &[u32]) -> Result<Listed, NoMemory>
        ensures plan { IfOk result (λ l. list_plan l ≡ ByList threads.now) }
        ensures stands { IfOk result (λ l. ListStands l []) }
    {
        Ok(Listed {
            threads: Vec::from_slice(alloc, threads)?,
            taken: 0,
        })
    }
}

impl Policy for Listed {
    ghost use Rattle.policy_pick.specs.Kept.{list_plan, ListStands};
    ghost use Rattle.policy_pick.specs.Laws.{choice-keeps, choice-sound};

    ghost plan = { list_plan };

    ghost stands = { ListStands };

    fn pick(&self, chances: &[Chance]) -> Pick {
        match self.threads.get(self.taken as usize).copied() {
            Some(thread) => pick_at(Pick::Thread(thread), thread, chances[thread as usize]),
            None => pick_by_number(chances),
        }
    }

    fn took(&mut self, _thread: u32) {
        self.taken += 1;
    }

    ghost keeps = { λ policy schedule earlier later speaks known waits.
        choice-keeps (list_plan policy) schedule earlier later known waits };

    ghost sound = { λ policy schedule chances speaks targets.
        choice-sound (list_plan policy) schedule chances speaks targets };
}
