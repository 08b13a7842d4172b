ghost use Rattle.std.specs.Prelude.{◌≡◌, ℕ, ◌<◌, List, [], ◌∷◌, ◌++◌, length, true};
ghost use Rattle.policy_pick.specs.declared.chance.Chance.{Chance};
ghost use Rattle.policy_pick.specs.Plan.{Plan, SpeaksOf, IsThreadOf, GoesByRank};
ghost use Rattle.policy_pick.specs.Choice.{choice, TargetsAreAway, IsSoundPick, KeepsKnown};
ghost use Rattle.policy_pick.specs.Choice.{IsWaits, KeepsChoices, Outranks};
ghost use Rattle.pct_ask.specs.declared.limits.TheConstants.{MAX_STEPS};

use crate::chance::{Chance, Pick};

/// Who goes next. A policy has parameters, its plan, which never change, and it stands for a
/// schedule: the threads that took the steps so far.
pub trait Policy: Send + Drop {
    // its parameters
    ghost plan: { Self → Plan };

    // what it keeps now is what this schedule left
    ghost stands: { Self → List ℕ → Type 0 };

    /// Picks the thread that goes next, from one chance for each thread.
    fn pick(&self, chances: &[Chance]) -> Pick
        requires threads { SpeaksOf (plan self.now) (length chances.now) }
        requires targets { TargetsAreAway chances.now }
        ensures choice { (schedule : List ℕ) → stands self.now schedule
            → result ≡ choice (plan self.now) schedule chances.now }
        ensures sound { IsSoundPick (plan self.now) chances.now result };

    /// Notes that the thread took a step.
    fn took(&mut self, thread: u32)
        requires thread { IsThreadOf (plan self.old) thread }
        requires short { (schedule : List ℕ)
            × stands self.old schedule
            × (length schedule < MAX_STEPS) }
        ensures plan { plan self.new ≡ plan self.old }
        ensures stands { (schedule : List ℕ) → stands self.old schedule
            → stands self.new (schedule ++ thread ∷ []) };

    /// As `took`, and true only where the step changes no choice: whatever is known of the threads,
    /// who goes next is as before it. Where it is false, that may be so, too.
    fn took_and_kept(&mut self, thread: u32) -> bool
        requires thread { IsThreadOf (plan self.old) thread }
        requires short { (schedule : List ℕ)
            × stands self.old schedule
            × (length schedule < MAX_STEPS) }
        ensures plan { plan self.new ≡ plan self.old }
        ensures stands { (schedule : List ℕ) → stands self.old schedule
            → stands self.new (schedule ++ thread ∷ []) }
        ensures same { result ≡ true → (schedule : List ℕ) → stands self.old schedule
            → KeepsChoices (plan self.old) schedule thread }
    {
        self.took(thread);
        false
    }

    /// True only where it goes by ranks: the open thread of greatest rank is the one that goes, or
    /// that is waited for.
    fn goes_by_rank(&self) -> bool
        ensures { result ≡ true → GoesByRank (plan self.now) }
    {
        false
    }

    /// True only where it goes by ranks, and each other thread of the bits, the lowest for
    /// thread 0, has a lower rank than the thread. Where it is false, that may be so, too.
    fn outranks(&self, thread: u32, others: u64) -> bool
        requires { IsThreadOf (plan self.now) thread }
        ensures { result ≡ true → (schedule : List ℕ) → stands self.now schedule
            → Outranks (plan self.now) schedule thread others }
    {
        false
    }

    // A choice that waits for nobody stays, as what was not known becomes known.
    ghost keeps: { (policy : Self) (schedule : List ℕ) (earlier later : List Chance)
        → SpeaksOf (plan policy) (length earlier) → KeepsKnown earlier later
        → ¬ IsWaits (choice (plan policy) schedule earlier)
        → choice (plan policy) schedule later ≡ choice (plan policy) schedule earlier };

    // Each choice is sound.
    ghost sound: { (policy : Self) (schedule : List ℕ) (chances : List Chance)
        → SpeaksOf (plan policy) (length chances) → TargetsAreAway chances
        → IsSoundPick (plan policy) chances (choice (plan policy) schedule chances) };
}
