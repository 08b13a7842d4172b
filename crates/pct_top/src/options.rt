//! The options of the commands.

ghost use Rattle.std.specs.Prelude.{◌≡◌, ◌+◌, ◌*◌, ◌≤◌, ◌∷◌, length, Some, None, Ok, Err, IfOk};
ghost use Rattle.std.specs.Prelude.{OnOk, ok_or};
ghost use Rattle.pct_outside.specs.Reading.{texts_of};
ghost use Rattle.pct_top.specs.Options as options;
ghost use Rattle.pct_top.specs.Options.{ChangesTo, GivesOptions, LeavesTo};
ghost use Rattle.pct_top.specs.declared.settings.WordsError.TheVariants.{Word};

use crate::command::Command;
use crate::settings::WordsError;
use crate::text::TextList;
use crate::values::{ReportForm, depth_in, form_in, order_in, points_in, seed_in, serve_in};
use pct_ask::{PointList, step_count};
use std::alloc::Global;
use worker_run::Serve;

/// The words that begin an option.
#[derive(Clone, Copy, Debug, PartialEq, Eq)]
pub enum OptionName {
    Order,
    Points,
    Limit,
    Seed,
    Depth,
    Steps,
    From,
    Count,
    Form,
    Serve,
}

/// The option that a word begins.
fn option_named(word: &str) -> Option<OptionName>
    ensures { result ≡ options.option_named word.now }
{
    match word {
        "--order" => Some(OptionName::Order),
        "--points" => Some(OptionName::Points),
        "--limit" => Some(OptionName::Limit),
        "--seed" => Some(OptionName::Seed),
        "--depth" => Some(OptionName::Depth),
        "--steps" => Some(OptionName::Steps),
        "--from" => Some(OptionName::From),
        "--count" => Some(OptionName::Count),
        "--form" => Some(OptionName::Form),
        "--serve" => Some(OptionName::Serve),
        _ => None,
    }
}

/// A value, where the word of this number has a lawful one.
fn lawful<T: Drop>(value: Option<T>, word: u32) -> Result<T, WordsError>
    ensures some { (it : T) → value ≡ Some it → result ≡ Ok it }
    ensures none { value ≡ None → result ≡ Err (Word word) }
{
    value.ok_or(WordsError::Word(word))
}

/// An order of threads as the words give it.
#[derive(Debug, Drop)]
pub struct NamedOrder {
    /// The threads' names, the highest priority first.
    pub items: TextList,
    /// The number of the word that they stand in, from 1.
    pub word: u32,
}

/// What options give, each at most once.
#[derive(Debug, Drop)]
pub struct Options {
    pub order: Option<NamedOrder>,
    pub points: Option<PointList>,
    pub limit: Option<u32>,
    pub seed: Option<u64>,
    pub depth: Option<u32>,
    pub steps: Option<u32>,
    pub from: Option<u64>,
    pub count: Option<u32>,
    pub form: Option<ReportForm>,
    pub serve: Option<Serve>,
}

impl Options {
    /// Before the first option.
    fn no_options() -> Options
        ensures { result ≡ options.no_options }
    {
        Options {
            order: None,
            points: None,
            limit: None,
            seed: None,
            depth: None,
            steps: None,
            from: None,
            count: None,
            form: None,
            serve: None,
        }
    }

    /// Whether the option wasn't given before.
    fn is_new(&self, name: OptionName) -> bool
        ensures { result ≡ options.is_new self.now name }
    {
        match name {
            OptionName::Order => self.order.is_none(),
            OptionName::Points => self.points.is_none(),
            OptionName::Limit => self.limit.is_none(),
            OptionName::Seed => self.seed.is_none(),
            OptionName::Depth => self.depth.is_none(),
            OptionName::Steps => self.steps.is_none(),
            OptionName::From => self.from.is_none(),
            OptionName::Count => self.count.is_none(),
            OptionName::Form => self.form.is_none(),
            OptionName::Serve => self.serve.is_none(),
        }
    }

    /// Whether the report is to be JSON. It is a text where no form is given.
    pub fn is_json(&self) -> bool
        ensures { result ≡ options.is_json self.now }
    {
        matches!(self.form, Some(ReportForm::Json))
    }

    /// The option that a word begins here, where it is new and the command takes it.
    fn next_option(&self, command: Command, word: &str) -> Option<OptionName>
        ensures { result ≡ options.next_option command self.now word.now }
    {
        option_named(word).filter(|name| self.is_new(*name) && command.takes_option(self, *name))
    }

    /// Takes the value of an option, which is the word of this number.
    fn take_value(
        &mut self,
        alloc: Global,
        name: OptionName,
        word: u32,
        value: &str,
    ) -> Result<(), WordsError>
        ensures { ChangesTo result self.new
            (ok_or (options.with_option_value self.old word name value.now) word) }
    {
        match name {
            OptionName::Order => {
                let items = lawful(order_in(alloc, value)?, word)?;
                self.order = Some(NamedOrder { items, word });
            }
            OptionName::Points => self.points = Some(lawful(points_in(alloc, value)?, word)?),
            OptionName::Limit => self.limit = Some(lawful(step_count(value.as_bytes()), word)?),
            OptionName::Seed => self.seed = Some(lawful(seed_in(value), word)?),
            OptionName::Depth => self.depth = Some(lawful(depth_in(value), word)?),
            OptionName::Steps => self.steps = Some(lawful(step_count(value.as_bytes()), word)?),
            OptionName::From => self.from = Some(lawful(seed_in(value), word)?),
            OptionName::Count => self.count = Some(lawful(step_count(value.as_bytes()), word)?),
            OptionName::Form => self.form = Some(lawful(form_in(value), word)?),
            OptionName::Serve => self.serve = Some(lawful(serve_in(value), word)?),
        }
        Ok(())
    }

    /// Takes the option that a word begins, which is the word of this number, and gives the words
    /// behind its value.
    fn take_next<'a>(
        &mut self,
        alloc: Global,
        command: Command,
        number: u32,
        word: &str,
        others: &'a [String],
    ) -> Result<&'a [String], WordsError>
        requires { number ≤ 4 + 2 * options.option_count self.old }
        ensures leaves { LeavesTo
            (λ rest. options.options_from command self.new (number + 2) (texts_of rest.now))
            (options.options_from command self.old number (word.now ∷ texts_of others.now)) result }
        ensures count { OnOk result
            (options.option_count self.new ≡ options.option_count self.old + 1) }
        ensures shorter { IfOk result (λ rest. length rest.now + 1 ≡ length others.now) }
    {
        let Some(name) = self.next_option(command, word) else {
            return Err(WordsError::Word(number));
        };
        let Some((value, rest)) = others.split_first() else {
            return Err(WordsError::Word(number + 1));
        };
        self.take_value(alloc, name, number + 1, value.as_str())?;
        Ok(rest)
    }
}

/// The options that words give a command, of which the first has this number, and the number of the
/// word that would follow them.
pub fn options_in(
    alloc: Global,
    command: Command,
    first: u32,
    words: &[String],
) -> Result<(Options, u32), WordsError>
    requires { first ≤ 4 }
    ensures options { GivesOptions (λ given. given.0) result
        (options.options_from command options.no_options first (texts_of words.now)) }
    ensures next { IfOk result (λ given. given.1 ≡ length words.now + first) }
{
    let mut options = Options::no_options();
    let mut number = first;
    let mut rest = words;
    while let Some((word, others)) = rest.split_first() {
        rest = options.take_next(alloc, command, number, word.as_str(), others)?;
        number += 2;
    }
    Ok((options, number))
}
