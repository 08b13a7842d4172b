ghost use Rattle.std.specs.Prelude.{◌≡◌, ℕ, ◌+◌, ◌*◌, ◌<◌, ◌≤◌, ◌∷◌, List, All, length};
ghost use Rattle.std.specs.Prelude.{slice_index, remove, IfOk, OnOk, OnErr};
ghost use Rattle.priority_draw.specs.Words.{words_later, first_words};
ghost use Rattle.rank_now.specs.Order.{IsOrderOf};
ghost use Rattle.priority_draw.specs.Orders.{declared_order, order_of, places_of};
ghost use Rattle.priority_draw.specs.Orders.{AreInBounds, AreOnlyPlaces};
ghost use Rattle.priority_draw.specs.Drawing.{scale, draw, drawn_places, drawn_order, drawn_points};
ghost use Rattle.priority_draw.specs.Drawing.{draw_of_seed, IsStepOfPoint};
ghost use Rattle.pct_ask.specs.declared.limits.TheConstants.{MAX_POINTS, MAX_STEPS, MAX_THREADS};

use pct_ask::{OrderList, PointList};
use rand_chacha::ChaCha8Rng;
use rand_core::SeedableRng;
use rand_core::utils::next_u64_via_u32;
use std::alloc::{AllocError as NoMemory, Global};
use std::marker::Model;

/// A number from 0 up to below the bound, in proportion to the word.
pub fn scale(word: u64, bound: u64) -> u64
    ensures value { result ≡ scale word bound }
    ensures below { 1 ≤ bound → result < bound }
{
    ((u128::from(word) * u128::from(bound)) >> 64) as u64
}

/// The random words of a seed, one after another.
#[derive(Debug, Drop)]
pub struct Words {
    generator: ChaCha8Rng,
}

impl Model for Words {
    ghost use Rattle.priority_draw.specs.Words.{SeedWords, IsOfSeed, seed_of_key};

    ghost Value = { SeedWords };

    ghost view = { λ w. record {
      seed = seed_of_key w.generator.key;
      place = w.generator.word_pos;
    } };

    ghost invariant = { λ w. IsOfSeed w.generator };
}

impl Words {
    pub fn of_seed(seed: u64) -> Words
        ensures { result ≡ first_words seed }
    {
        let mut key = [0; 32];
        key[..8].copy_from_slice(&seed.to_le_bytes());
        Words {
            generator: ChaCha8Rng::from_seed(key),
        }
    }

    /// Draws a number below the bound.
    pub fn below(&mut self, bound: u64) -> u64
        requires { 1 ≤ bound }
        ensures value { result ≡ draw self.old.seed self.old.place bound }
        ensures below { result < bound }
        ensures words { self.new ≡ words_later self.old 2 }
    {
        scale(next_u64_via_u32(&mut self.generator), bound)
    }

    /// Draws an order of the threads. Memory is taken before any word.
    pub fn draw_order(&mut self, alloc: Global, threads: u32) -> Result<OrderList, NoMemory>
        requires some_thread { 1 ≤ threads }
        requires few_threads { threads ≤ MAX_THREADS }
        ensures value { IfOk result (λ order.
            order ≡ drawn_order self.old.seed self.old.place threads) }
        ensures order { IfOk result (IsOrderOf threads) }
        ensures words { OnOk result (self.new ≡ words_later self.old (2 * threads)) }
        ensures no_memory { OnErr result (self.new ≡ self.old) }

        // From a seed's first word on it is the seed's order.
        ensures of_seed { IfOk result (λ order.
            (seed steps depth : ℕ) → self.old ≡ first_words seed
            → order ≡ (draw_of_seed seed threads steps depth).order) }

        // The places are in bounds. Each list of places in bounds gives an order, and each order is
        // given by exactly one.
        ensures places { AreInBounds threads (drawn_places self.old.seed self.old.place threads) }
        ensures each_list { (places : List ℕ) → AreInBounds threads places
            → IsOrderOf threads (order_of places) }
        ensures each_order { (order : List ℕ) → IsOrderOf threads order
            → AreOnlyPlaces threads order (places_of order) }
    {
        let mut order = declared_order(alloc, threads)?;
        self.take_out(&mut order);
        Ok(OrderList::from_vec(order))
    }

    /// Draws change points of a run. Memory is taken before any word.
    pub fn draw_points(
        &mut self,
        alloc: Global,
        steps: u32,
        count: u32,
    ) -> Result<PointList, NoMemory>
        requires some_step { 1 ≤ steps }
        requires few_steps { steps ≤ MAX_STEPS }
        requires few_points { count ≤ MAX_POINTS }
        ensures value { IfOk result (λ points.
            points ≡ drawn_points self.old.seed self.old.place steps count) }
        ensures count { IfOk result (λ points. length points ≡ count) }
        ensures steps { IfOk result (All (IsStepOfPoint steps)) }
        ensures words { OnOk result (self.new ≡ words_later self.old (2 * count)) }
        ensures no_memory { OnErr result (self.new ≡ self.old) }

        // After the seed's order of its threads they are the seed's points.
        ensures of_seed { IfOk result (λ points.
            (seed threads depth : ℕ) → self.old ≡ words_later (first_words seed) (2 * threads)
            → depth ≡ count + 1 → points ≡ (draw_of_seed seed threads steps depth).points) }
    {
        let mut points = vec![in alloc; 0; count as usize]?;
        self.fill(&mut points, steps);
        Ok(PointList::from_vec(points))
    }

    /// Takes threads out of those that remain, one by one, and lines them up in front.
    fn take_out(&mut self, threads: &mut [u32])
        requires { threads.old ≡ declared_order (length threads.old) }
        ensures order { threads.new
            ≡ drawn_order self.old.seed self.old.place (length threads.old) }
        ensures words { self.new ≡ words_later self.old (2 * length threads.old) }
    {
        for taken in 0..threads.len() {
            let place = self.below((threads.len() - taken) as u64);
            to_front(&mut threads[taken..], place as usize);
        }
    }

    /// Draws each of the points anew.
    fn fill(&mut self, points: &mut [u32], steps: u32)
        requires some_step { 1 ≤ steps }
        requires few_steps { steps ≤ MAX_STEPS }
        ensures points { points.new
            ≡ drawn_points self.old.seed self.old.place steps (length points.old) }
        ensures words { self.new ≡ words_later self.old (2 * length points.old) }
    {
        for point in points.iter_mut() {
            *point = 1 + self.below(u64::from(steps)) as u32;
        }
    }
}

/// The order of the threads as they are declared, the first with the highest priority.
pub fn declared_order(alloc: Global, threads: u32) -> Result<Vec<u32>, NoMemory>
    ensures { IfOk result (λ order. order.items ≡ declared_order threads) }
{
    (0..threads).collect(alloc)
}

/// Moves the thread at the place to the front, and keeps the order of the others.
fn to_front(remaining: &mut [u32], place: usize)
    requires { place < length remaining.old }
    ensures { remaining.new ≡ slice_index remaining.old place ∷ remove remaining.old place }
{
    remaining[..=place].rotate_right(1);
}
