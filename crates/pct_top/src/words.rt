//! The words of the command line.

ghost use Rattle.std.specs.Prelude.{◌≡◌, [], ◌∷◌, IfOk, IfErr};
ghost use Rattle.pct_outside.specs.Reading.{texts_of};
ghost use Rattle.pct_top.specs.declared.settings.WordsError.TheVariants.{Word};
ghost use Rattle.pct_top.specs.Settings as settings;
ghost use Rattle.pct_top.specs.Settings.{ReadsWordsAs, AreLawful};

use crate::command::Command;
use crate::options::{NamedOrder, Options, options_in};
use crate::settings::{Report, Settings, WordsError};
use crate::text::Text;
use crate::values::pieces_in;
use pct_ask::PointList;
use std::alloc::Global;
use worker_run::Serve;

/// How many steps a run may have where nothing else is said.
pub const DEFAULT_LIMIT: u32 = 10_000;

/// The first of these words, whose number this is, and those behind it.
fn split_word(words: &[String], number: u32) -> Result<(&str, &[String]), WordsError>
    ensures some { IfOk result
        (λ given. texts_of words.now ≡ given.0.now ∷ texts_of given.1.now) }
    ensures none { IfErr result (λ error. (error ≡ Word number) × (texts_of words.now ≡ [])) }
{
    let Some((word, others)) = words.split_first() else {
        return Err(WordsError::Word(number));
    };
    Ok((word.as_str(), others))
}

/// The run that options ask for, where they are all there.
fn run_with(alloc: Global, report: Report, file: Text, options: Options) -> Option<Settings>
    ensures { result ≡ settings.run_with report file options }
{
    let Options {
        order,
        points,
        limit,
        seed,
        depth,
        steps,
        ..
    } = options;
    let limit = limit.unwrap_or(DEFAULT_LIMIT);
    if let Some(NamedOrder { items, word }) = order {
        return Some(Settings::RunOrder {
            file,
            order: items,
            word,
            points: points.unwrap_or(PointList::new(alloc)),
            limit,
            report,
        });
    }
    Some(Settings::RunSeed {
        file,
        seed: seed?,
        depth: depth?,
        steps,
        limit,
        report,
    })
}

fn run_words(alloc: Global, report: Report, words: &[String]) -> Result<Settings, WordsError>
    ensures { ReadsWordsAs result
        (settings.settings_with (Command.Run report) (settings.run_with report)
        (texts_of words.now)) }
{
    let (file, others) = split_word(words, 2)?;
    let (options, next) = options_in(alloc, Command::Run(report), 3, others)?;
    let file = Text::copy_of(alloc, file)?;
    run_with(alloc, report, file, options).ok_or(WordsError::Word(next))
}

/// The campaign that options ask for, where they are all there.
fn campaign_with(file: Text, options: Options) -> Option<Settings>
    ensures { result ≡ settings.campaign_with file options }
{
    Some(Settings::Campaign {
        file,
        first: options.from?,
        count: options.count?,
        depth: options.depth?,
        steps: options.steps,
        limit: options.limit.unwrap_or(DEFAULT_LIMIT),
        json: options.is_json(),
        serve: options.serve.unwrap_or(Serve::Threads),
    })
}

fn campaign_words(alloc: Global, words: &[String]) -> Result<Settings, WordsError>
    ensures { ReadsWordsAs result
        (settings.settings_with Command.Campaign settings.campaign_with (texts_of words.now)) }
{
    let (file, others) = split_word(words, 2)?;
    let (options, next) = options_in(alloc, Command::Campaign, 3, others)?;
    let file = Text::copy_of(alloc, file)?;
    campaign_with(file, options).ok_or(WordsError::Word(next))
}

fn big_words(alloc: Global, words: &[String]) -> Result<Settings, WordsError>
    ensures { ReadsWordsAs result (settings.big_settings (texts_of words.now)) }
{
    let (word, others) = split_word(words, 2)?;
    let pieces = pieces_in(word).ok_or(WordsError::Word(2))?;
    let (options, _) = options_in(alloc, Command::Big, 3, others)?;
    Ok(Settings::Big {
        pieces,
        serve: options.serve.unwrap_or(Serve::Threads),
    })
}

fn replay_words(alloc: Global, words: &[String]) -> Result<Settings, WordsError>
    ensures { ReadsWordsAs result
        (settings.settings_over Command.Replay settings.replay_with (texts_of words.now)) }
{
    let (file, others) = split_word(words, 2)?;
    let (trace, others) = split_word(others, 3)?;
    options_in(alloc, Command::Replay, 4, others)?; // takes none: a word here is refused
    Ok(Settings::Replay {
        file: Text::copy_of(alloc, file)?,
        trace: Text::copy_of(alloc, trace)?,
    })
}

/// What is to be exposed of a directive, where the options are all there.
fn expose_with(file: Text, directive: Text, options: Options) -> Option<Settings>
    ensures { result ≡ settings.expose_with file directive options }
{
    let NamedOrder { items, word } = options.order?;
    Some(Settings::Expose {
        file,
        directive,
        order: items,
        word,
        steps: options.steps?,
        limit: options.limit.unwrap_or(DEFAULT_LIMIT),
    })
}

fn expose_words(alloc: Global, words: &[String]) -> Result<Settings, WordsError>
    ensures { ReadsWordsAs result
        (settings.settings_over Command.Expose settings.expose_with (texts_of words.now)) }
{
    let (file, others) = split_word(words, 2)?;
    let (directive, others) = split_word(others, 3)?;
    let (options, next) = options_in(alloc, Command::Expose, 4, others)?;
    let file = Text::copy_of(alloc, file)?;
    let directive = Text::copy_of(alloc, directive)?;
    expose_with(file, directive, options).ok_or(WordsError::Word(next))
}

/// What is to be certified of a directive, where the options are all there.
fn certify_with(file: Text, directive: Text, options: Options) -> Option<Settings>
    ensures { result ≡ settings.certify_with file directive options }
{
    Some(Settings::Certify {
        file,
        directive,
        steps: options.steps?,
        limit: options.limit.unwrap_or(DEFAULT_LIMIT),
        serve: options.serve.unwrap_or(Serve::Threads),
    })
}

fn certify_words(alloc: Global, words: &[String]) -> Result<Settings, WordsError>
    ensures { ReadsWordsAs result
        (settings.settings_over Command.Certify settings.certify_with (texts_of words.now)) }
{
    let (file, others) = split_word(words, 2)?;
    let (directive, others) = split_word(others, 3)?;
    let (options, next) = options_in(alloc, Command::Certify, 4, others)?;
    let file = Text::copy_of(alloc, file)?;
    let directive = Text::copy_of(alloc, directive)?;
    certify_with(file, directive, options).ok_or(WordsError::Word(next))
}

/// The sweep that options ask for, where they are all there.
fn sweep_with(file: Text, options: Options) -> Option<Settings>
    ensures { result ≡ settings.sweep_with file options }
{
    Some(Settings::Sweep {
        file,
        depth: options.depth?,
        steps: options.steps,
        limit: options.limit.unwrap_or(DEFAULT_LIMIT),
        json: options.is_json(),
        serve: options.serve.unwrap_or(Serve::Threads),
    })
}

fn sweep_words(alloc: Global, words: &[String]) -> Result<Settings, WordsError>
    ensures { ReadsWordsAs result
        (settings.settings_with Command.Sweep settings.sweep_with (texts_of words.now)) }
{
    let (file, others) = split_word(words, 2)?;
    let (options, next) = options_in(alloc, Command::Sweep, 3, others)?;
    let file = Text::copy_of(alloc, file)?;
    sweep_with(file, options).ok_or(WordsError::Word(next))
}

/// What the words after a command's ask for.
fn command_words(alloc: Global, command: Command, words: &[String]) -> Result<Settings, WordsError>
    ensures { ReadsWordsAs result (settings.settings_of command (texts_of words.now)) }
{
    match command {
        Command::Run(report) => run_words(alloc, report, words),
        Command::Campaign => campaign_words(alloc, words),
        Command::Big => big_words(alloc, words),
        Command::Replay => replay_words(alloc, words),
        Command::Expose => expose_words(alloc, words),
        Command::Certify => certify_words(alloc, words),
        Command::Sweep => sweep_words(alloc, words),
    }
}

/// What the words ask for, or the number of the first word that isn't taken.
pub fn read_words(alloc: Global, words: &[String]) -> Result<Settings, WordsError>
    ensures settings { ReadsWordsAs result (settings.settings (texts_of words.now)) }
    ensures lawful { IfOk result AreLawful }
{
    let Some((word, others)) = words.split_first() else {
        return Err(WordsError::Word(1));
    };
    match Command::named(word.as_str()) {
        Some(command) => command_words(alloc, command, others),
        None => Err(WordsError::Word(1)),
    }
}
