//! What the words of the command line ask for.

ghost use Rattle.std.specs.Prelude.{◌≡◌};
ghost use Rattle.pct_top.specs.declared.settings.WordsError.TheVariants.{NoMemory as no_memory};

use crate::text::{Text, TextList};
use pct_ask::PointList;
use std::alloc::AllocError;
use thiserror::Error;
use worker_run::Serve;

/// What is reported of a run.
#[derive(Clone, Copy, Debug, PartialEq, Eq)]
pub enum Report {
    /// The trace.
    Trace,
    /// The data races.
    Races,
    /// The order in which its mutexes are nested.
    Locks,
    /// The short directive that its failure comes to.
    Find,
}

/// A command with its values. Where it makes many runs, `serve` says who serves their bodies, which
/// changes nothing of what is printed.
#[derive(Debug, Drop)]
pub enum Settings {
    /// The run of a script under an order of its threads, the highest priority first, which stands
    /// in the word of this number, and change points. It has at most `limit` steps.
    RunOrder {
        file: Text,
        order: TextList,
        word: u32,
        points: PointList,
        limit: u32,
        report: Report,
    },
    /// The run of a script under an order and `depth - 1` change points that are drawn from a seed.
    /// The points are drawn from so many steps, or where none are given from as many as the run in
    /// declared order has.
    RunSeed {
        file: Text,
        seed: u64,
        depth: u32,
        steps: Option<u32>,
        limit: u32,
        report: Report,
    },
    /// A campaign: the runs of a script for each of `count` seeds from `first` on, after whose last
    /// comes 0, and the report on them, as JSON or as a text.
    Campaign {
        file: Text,
        first: u64,
        count: u32,
        depth: u32,
        steps: Option<u32>,
        limit: u32,
        json: bool,
        serve: Serve,
    },
    /// The campaign of the large script, whose threads have so many pieces.
    Big {
        pieces: u32,
        serve: Serve,
    },
    /// The replay of a trace over a script.
    Replay {
        file: Text,
        trace: Text,
    },
    /// The run of a script that a directive exposes under an order of its threads, which stands in
    /// the word of this number. It has at most `limit` steps, and points stand for the directive's
    /// moments where it has at most `steps`.
    Expose {
        file: Text,
        directive: Text,
        order: TextList,
        word: u32,
        steps: u32,
        limit: u32,
    },
    /// The certificate of a directive over a script, for runs of at most `steps` steps.
    Certify {
        file: Text,
        directive: Text,
        steps: u32,
        limit: u32,
        serve: Serve,
    },
    /// A sweep: the runs of a script under every order and every `depth - 1` change points of so
    /// many steps, and the report on them, as JSON or as a text.
    Sweep {
        file: Text,
        depth: u32,
        steps: Option<u32>,
        limit: u32,
        json: bool,
        serve: Serve,
    },
}

#[derive(Debug, Drop, Error)]
pub enum WordsError {
    /// The number of the first word that isn't taken, from 1.
    #[error("word {0}")]
    Word(u32),
    #[error("no memory")]
    NoMemory,
}

impl From<AllocError> for WordsError {
    ghost from_gives = { λ _ e. e ≡ no_memory };

    fn from(_error: AllocError) -> WordsError {
        WordsError::NoMemory
    }
}
