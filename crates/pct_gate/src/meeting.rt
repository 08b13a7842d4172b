//! Two guests who look for each other, each in a thread of its own.
ghost use Rattle.std.specs.Prelude.{◌≡◌, ◌+◌, ◌-◌, ◌<◌, ◌∷◌, [], length, IfSome, IsTrue};
ghost use Rattle.pct_gate.specs.Meeting.{HasHappening, MaySee, SawOther, IsGuestWord, looks_of};
ghost use Rattle.pct_gate.specs.Meeting.{word_of_guest};
ghost use Rattle.pct_gate.specs.declared.happening.Happening.TheVariants.{Opened, Came};

use crate::happening::Happening;
use logbook::{Gain, Offer, Opening, Plain, Play, Rule, Seen, Start, Word};
use std::fmt;
use std::fmt::{Debug, Formatter, Write};
use std::thread::yield_now;

/// What is true between any two steps: a guest's word says that it came or saw only where that has
/// happened.
pub struct Law;

impl Rule<Happening, u64> for Law {
    ghost use Rattle.std.specs.Prelude.{[]};
    ghost use base.Fml.{ftrue};
    ghost use Rattle.pct_gate.specs.Meeting.{IsMeeting};

    ghost holds = { λ cells log. IsMeeting cells log };

    ghost first = { [] };

    ghost hinted = { λ n log. Unit {0} };

    ghost shows = { λ log. [] };

    ghost keeps = { λ names log. ftrue };

    ghost moves = { λ ask before after answer. Unit {0} };
}

/// Callers trade nothing.
pub struct Nothing;

impl Gain<Happening, u64> for Nothing {
    ghost use base.Fml.{ftrue};

    ghost after = { λ names about answer. ftrue };
}

/// A meeting is opened.
pub struct Opens;

impl Opening<u64, Happening> for Opens {
    ghost use Rattle.std.specs.Prelude.{[], ◌∷◌};
    ghost use Rattle.pct_gate.specs.declared.happening.Happening.TheVariants.{Opened};

    ghost log = { λ count looks. Opened looks ∷ [] };
}

/// A step that looks at a guest.
pub struct Looking;

impl Play<Happening, u64> for Looking {
    ghost use Rattle.pct_gate.specs.Meeting.{LooksAtGuest};

    ghost then = { λ s v found w. LooksAtGuest s v found w };
}

impl Plain<(), Happening, u64> for Looking {
    ghost use Rattle.std.specs.Prelude.{None};
    ghost use Rattle.pct_gate.specs.declared.happening.Happening.TheVariants.{Opened};

    ghost ask = { λ _. Opened 0 };

    ghost state = { λ _. None };
}

/// A step by which a guest marks how far it is.
pub struct Marking;

impl Play<Happening, u64> for Marking {
    ghost use Rattle.pct_gate.specs.Meeting.{MarksArrival};

    ghost then = { λ s v found w. MarksArrival s v found w };
}

type Known = Seen<Happening, u64, Law>;

type Place = Word<Happening, u64, Law>;

// How far a guest is, in its word.
const AWAY: u64 = 0;

const CAME: u64 = 1;

const SAW: u64 = 2;

// A guest comes.
fn come(mine: &Place, opened: &Known) -> Known
    requires { IsGuestWord mine.now opened.now.book × (0 < length opened.now.log) }
    ensures book { result.book ≡ opened.now.book }
    ensures came { HasHappening result.log (Came mine.now.key) }
    ensures looks { looks_of result.log ≡ looks_of opened.now.log }
{
    let mut known = opened.again();
    let mut offer: Offer<Happening, u64, Law, Nothing> = known.plain::<Nothing, (), Looking>(&());
    let mut pen = known.no_pen();
    mine.compare_exchange::<Marking, Nothing>(AWAY, CAME, &mut known, &mut offer, &mut pen);
    known
}

// What a guest that has come learns by a look at the other, if that one has come too.
fn look(theirs: &Place, known: &Known) -> Option<Known>
    requires place { IsGuestWord theirs.now known.now.book }
    requires came { HasHappening known.now.log (Came (1 - theirs.now.key)) }
    ensures book { IfSome result (λ seen. seen.book ≡ known.now.book) }
    ensures came { IfSome result (λ seen. HasHappening seen.log (Came (1 - theirs.now.key))) }
    ensures other_came { IfSome result (λ seen. HasHappening seen.log (Came theirs.now.key)) }
    ensures looks { IfSome result (λ seen. looks_of seen.log ≡ looks_of known.now.log) }
{
    let mut seen = known.again();
    let mut offer: Offer<Happening, u64, Law, Nothing> = seen.plain::<Nothing, (), Looking>(&());
    let found = theirs.load::<Looking, Nothing>(&mut seen, &mut offer);
    if found >= CAME { Some(seen) } else { None }
}

// Notes that a guest has seen the other.
fn note(mine: &Place, mut seen: Known)
    requires place { IsGuestWord mine.now seen.book }
    requires may { MaySee seen.log mine.now.key }
{
    let mut offer: Offer<Happening, u64, Law, Nothing> = seen.plain::<Nothing, (), Looking>(&());
    let mut pen = seen.no_pen();
    mine.compare_exchange::<Marking, Nothing>(CAME, SAW, &mut seen, &mut offer, &mut pen);
}

// What shows that a guest has seen the other, if it has.
fn sighting(theirs: &Place, opened: &Known) -> Option<Known>
    requires { IsGuestWord theirs.now opened.now.book × (0 < length opened.now.log) }
    ensures book { IfSome result (λ seen. seen.book ≡ opened.now.book) }
    ensures saw { IfSome result (λ seen. SawOther seen.log theirs.now.key) }
    ensures looks { IfSome result (λ seen. looks_of seen.log ≡ looks_of opened.now.log) }
{
    let mut seen = opened.again();
    let mut offer: Offer<Happening, u64, Law, Nothing> = seen.plain::<Nothing, (), Looking>(&());
    let found = theirs.load::<Looking, Nothing>(&mut seen, &mut offer);
    if found >= SAW { Some(seen) } else { None }
}

// A guest comes, and looks for the other as often as guests of this meeting do.
fn meet(mine: &Place, theirs: &Place, opened: &Known, looks: u64)
    requires mine { IsGuestWord mine.now opened.now.book }
    requires theirs { IsGuestWord theirs.now opened.now.book }
    requires apart { mine.now.key + theirs.now.key ≡ 1 }
    requires looks { (0 < length opened.now.log) × (looks ≡ looks_of opened.now.log) }
{
    let known = come(mine, opened);
    for _ in 0..looks {
        if let Some(seen) = look(theirs, &known) {
            note(mine, seen);
            return;
        }
        yield_now();
    }
}

/// What two guests share, who look for each other.
#[derive(Drop)]
pub struct Meeting {
    looks: u64,
    one: Place,
    other: Place,
    opened: Known,
    ghost one_is: { one ≡ word_of_guest 0 opened.book },
    ghost other_is: { other ≡ word_of_guest 1 opened.book },
    ghost opened_for: { opened.log ≡ Opened looks ∷ [] },
}

impl Debug for Meeting {
    fn fmt<W: Write>(&self, f: &mut Formatter<W>) -> fmt::Result {
        f.debug_struct("Meeting")
            .field("looks", &self.looks)
            .finish_non_exhaustive()
    }
}

impl Meeting {
    /// For guests that look `looks` times.
    pub fn new(looks: u64) -> Meeting
        ensures { result.looks ≡ looks }
    {
        let (opened, mut places) = Known::open_row::<u64, Opens>(&looks, Start::alone(), 2);
        let mut first = places.take();
        let mut second = places.take();
        Meeting {
            looks,
            one: Word::tracked(AWAY, &mut first),
            other: Word::tracked(AWAY, &mut second),
            opened,
        }
    }

    /// The one guest comes, and looks for the other.
    pub fn bring_one(&self) {
        meet(&self.one, &self.other, &self.opened, self.looks);
    }

    /// The other guest comes, and looks for the one.
    pub fn bring_other(&self) {
        meet(&self.other, &self.one, &self.opened, self.looks);
    }

    // What shows that each guest has seen the other, if each has.
    fn sightings(&self) -> Option<(Known, Known)>
        ensures one { IfSome result (λ seen.
            (seen.0.book ≡ self.now.opened.book)
            × SawOther seen.0.log 0
            × (looks_of seen.0.log ≡ self.now.looks)) }
        ensures other { IfSome result (λ seen.
            (seen.1.book ≡ self.now.opened.book)
            × SawOther seen.1.log 1
            × (looks_of seen.1.log ≡ self.now.looks)) }
    {
        let one = sighting(&self.one, &self.opened)?;
        let other = sighting(&self.other, &self.opened)?;
        Some((one, other))
    }

    /// Whether each of the two has seen the other. Guests who never look have not.
    pub fn is_complete(&self) -> bool
        ensures { IsTrue result → 0 < self.now.looks }
    {
        self.sightings().is_some()
    }
}
