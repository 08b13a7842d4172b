ghost use Rattle.std.specs.Prelude.{◌≡◌, ◌+◌, ◌≤◌, IfOk};
ghost use Rattle.priority_draw.specs.Drawing.{draw_of_seed};

use pct_ask::{OrderList, PointList};
use priority_draw::{Words, declared_order, scale};
use std::alloc::{AllocError as NoMemory, Global};
use std::process::Abort;
use std::test::Fail;

/// What a run is drawn: the order and then the points of a seed.
fn draw_both(
    alloc: Global,
    seed: u64,
    threads: u32,
    steps: u32,
    depth: u32,
) -> Result<(OrderList, PointList), NoMemory>
    requires some_thread { 1 ≤ threads }
    requires few_threads { threads ≤ 64 }
    requires some_step { 1 ≤ steps }
    requires few_steps { steps ≤ 100000 }
    requires some_depth { 1 ≤ depth }
    requires low_depth { depth ≤ 8 }
    ensures order { IfOk result (λ both. both.0 ≡ (draw_of_seed seed threads steps depth).order) }
    ensures points { IfOk result (λ both. both.1 ≡ (draw_of_seed seed threads steps depth).points) }
{
    let mut words = Words::of_seed(seed);
    let order = words.draw_order(alloc, threads)?;
    let points = words.draw_points(alloc, steps, depth - 1)?;
    Ok((order, points))
}

/// A word, a bound, and the number below it.
const SCALED: [(u64, u64, u64); 4] = [
    (9223372036854775808, 3, 1),
    (18446744073709551615, 16, 15),
    (0, 5, 0),
    (18446744073709551615, 1, 0),
];

#[test]
fn scaled(rt: HostRuntime) {
    for (word, bound, number) in &SCALED {
        assert_eq!(rt; scale(*word, *bound), *number);
    }
}

#[test]
fn declared(rt: HostRuntime) -> Result<(), Fail> {
    let order = declared_order(rt.alloc(), 3)?;
    assert_eq!(rt; order.as_slice(), [0, 1, 2].as_slice());
    Ok(())
}

// These words, orders and points are those of tests/chacha.py.

const FIRST_WORDS: [(u64, [u32; 8]); 3] = [
    (
        0,
        [
            0x2fef003e, 0xd6405f89, 0xe8b85b7f, 0xa1a5091f, 0xc30e842c, 0x3b7f9ace, 0x88e11b18,
            0x1e1a71ef,
        ],
    ),
    (
        1,
        [
            0xa0e95ecf, 0x61a94a49, 0xedd5053e, 0x4b805b72, 0x65a4f412, 0xcc5a63ee, 0xe81d313a,
            0xea890474,
        ],
    ),
    (
        18446744073709551615,
        [
            0x227148c7, 0xb44e8639, 0xa091a9bc, 0x3b9a5b01, 0x0122f008, 0xa69422e6, 0x4682e4fc,
            0x6a98da83,
        ],
    ),
];

/// The first draws of a seed, each below its bound.
fn draws_below(rt: &impl Abort, seed: u64, bounds: [u64; 4]) -> [u64; 4] {
    let mut words = Words::of_seed(seed);
    let mut drawn = [0; 4];
    for place in 0..4 {
        assert!(rt; bounds[place] > 0);
        drawn[place] = words.below(bounds[place]);
    }
    drop(words);
    drawn
}

/// Two words are a number, and a draw below the greatest bound is the number less one.
fn draw_of_words(low: u32, high: u32) -> u64 {
    (u64::from(high) << 32 | u64::from(low)).saturating_sub(1)
}

#[test]
fn first_words(rt: HostRuntime) {
    for (seed, words) in &FIRST_WORDS {
        let wanted = [
            draw_of_words(words[0], words[1]),
            draw_of_words(words[2], words[3]),
            draw_of_words(words[4], words[5]),
            draw_of_words(words[6], words[7]),
        ];
        assert_eq!(rt; draws_below(&rt, *seed, [u64::MAX; 4]), wanted);
    }
}

// A seed, its places of four threads, and their order.
const ORDERS: [(u64, [u64; 4], [u32; 4]); 24] = [
    (4, [0, 0, 0, 0], [0, 1, 2, 3]),
    (13, [0, 0, 1, 0], [0, 1, 3, 2]),
    (24, [0, 1, 0, 0], [0, 2, 1, 3]),
    (6, [0, 1, 1, 0], [0, 2, 3, 1]),
    (18, [0, 2, 0, 0], [0, 3, 1, 2]),
    (26, [0, 2, 1, 0], [0, 3, 2, 1]),
    (17, [1, 0, 0, 0], [1, 0, 2, 3]),
    (1, [1, 0, 1, 0], [1, 0, 3, 2]),
    (9, [1, 1, 0, 0], [1, 2, 0, 3]),
    (11, [1, 1, 1, 0], [1, 2, 3, 0]),
    (8, [1, 2, 0, 0], [1, 3, 0, 2]),
    (59, [1, 2, 1, 0], [1, 3, 2, 0]),
    (177, [2, 0, 0, 0], [2, 0, 1, 3]),
    (21, [2, 0, 1, 0], [2, 0, 3, 1]),
    (19, [2, 1, 0, 0], [2, 1, 0, 3]),
    (3, [2, 1, 1, 0], [2, 1, 3, 0]),
    (53, [2, 2, 0, 0], [2, 3, 0, 1]),
    (46, [2, 2, 1, 0], [2, 3, 1, 0]),
    (2, [3, 0, 0, 0], [3, 0, 1, 2]),
    (62, [3, 0, 1, 0], [3, 0, 2, 1]),
    (0, [3, 1, 0, 0], [3, 1, 0, 2]),
    (25, [3, 1, 1, 0], [3, 1, 2, 0]),
    (12, [3, 2, 0, 0], [3, 2, 0, 1]),
    (28, [3, 2, 1, 0], [3, 2, 1, 0]),
];

#[test]
fn all_orders_of_four(rt: HostRuntime) -> Result<(), Fail> {
    for (seed, places, order) in &ORDERS {
        assert_eq!(rt; draws_below(&rt, *seed, [4, 3, 2, 1]), *places);
        expect_drawn(&rt, rt.alloc(), &(*seed, 4, 1, order, &[]))?;
    }
    Ok(())
}

const ORDER_OF_64: [u32; 64] = [
    53, 39, 14, 7, 17, 5, 0, 19, 23, 45, 43, 29, 40, 27, 49, 44, 38, 63, 52, 32, 24, 31, 9, 61, 42,
    16, 36, 22, 3, 21, 41, 1, 25, 11, 30, 62, 60, 34, 50, 18, 48, 33, 26, 15, 12, 20, 46, 2, 58,
    51, 56, 13, 54, 37, 47, 28, 35, 8, 6, 10, 4, 59, 55, 57,
];

const SEVEN_POINTS: [u32; 7] = [52140, 74076, 42112, 10546, 37801, 80074, 18436];

/// A seed, how many threads and steps, the order, and the points.
type Drawn<'a> = (u64, u32, u32, &'a [u32], &'a [u32]);

const DRAWN: [Drawn<'static>; 3] = [
    (1, 1, 1, &[0], &[1, 1]),
    (0, 64, 100000, &ORDER_OF_64, &SEVEN_POINTS),
    (7, 3, 100000, &[2, 0, 1], &[30138, 38613]),
];

/// The order and then the points of the seed.
fn expect_drawn(rt: &impl Abort, alloc: Global, drawn: &Drawn<'_>) -> Result<(), Fail> {
    let (seed, threads, steps, order, points) = *drawn;
    assert!(rt; 1 <= threads && threads <= 64);
    assert!(rt; 1 <= steps && steps <= 100000);
    assert!(rt; points.len() <= 7);
    let found = draw_both(alloc, seed, threads, steps, points.len() as u32 + 1)?;
    assert_eq!(rt; (found.0.as_slice(), found.1.as_slice()), (order, points));
    Ok(())
}

/// One thread and one step, the greatest bounds, and three threads.
#[test]
fn orders_and_points(rt: HostRuntime) -> Result<(), Fail> {
    for drawn in &DRAWN {
        expect_drawn(&rt, rt.alloc(), drawn)?;
    }
    Ok(())
}
