//! The bound that PCT proves.

ghost use Rattle.std.specs.Prelude.{◌≡◌, ◌≤◌, ◌*◌, ◌^◌};
ghost use Rattle.pct_ask.specs.declared.limits.TheConstants.{MAX_POINTS, MAX_STEPS};

/// In how many choices of an order of the threads and of `points` change points, each one of
/// `steps` steps, at least one leads to a verdict that a directive of as many moments guarantees:
/// the threads times the steps to the power of the points (PCT: Burckhardt, Kothari, Musuvathi,
/// Nagarakatte, "A Randomized Scheduler with Probabilistic Guarantees of Finding Bugs", 2010).
pub fn bound_of(threads: u32, steps: u32, points: usize) -> u128
    requires few_threads { threads ≤ 16 }
    requires few_steps { steps ≤ MAX_STEPS }
    requires few_points { points ≤ MAX_POINTS }
    ensures { result ≡ threads * steps ^ points }
{
    let mut bound = u128::from(threads);
    for _point in 0..points {
        bound *= u128::from(steps);
    }
    bound
}
