//! The table of the program's commands.

ghost use Rattle.std.specs.Prelude.{◌≡◌};
ghost use Rattle.pct_top.specs.Table as table;

use crate::options::{OptionName, Options};
use crate::settings::Report;

/// A command of the program.
#[derive(Clone, Copy, Debug, PartialEq, Eq)]
pub enum Command {
    /// A run of a script, of which this is reported.
    Run(Report),
    Campaign,
    Big,
    Replay,
    Expose,
    Certify,
    Sweep,
}

impl Command {
    /// The command that a word names.
    pub fn named(word: &str) -> Option<Command>
        ensures { result ≡ table.command_named word.now }
    {
        match word {
            "run" => Some(Command::Run(Report::Trace)),
            "races" => Some(Command::Run(Report::Races)),
            "locks" => Some(Command::Run(Report::Locks)),
            "find" => Some(Command::Run(Report::Find)),
            "campaign" => Some(Command::Campaign),
            "big" => Some(Command::Big),
            "replay" => Some(Command::Replay),
            "expose" => Some(Command::Expose),
            "certify" => Some(Command::Certify),
            "sweep" => Some(Command::Sweep),
            _ => None,
        }
    }

    /// Whether the command takes an option, beside those that were given.
    pub fn takes_option(self, given: &Options, name: OptionName) -> bool
        ensures { result ≡ table.takes_option self given.now name }
    {
        match self {
            Command::Run(_) => run_takes(given, name),
            Command::Campaign => campaign_takes(name),
            Command::Expose => expose_takes(name),
            Command::Certify => certify_takes(name),
            Command::Sweep => sweep_takes(name),
            Command::Big => big_takes(name),
            Command::Replay => false,
        }
    }
}

/// Whether an option of the ordered form was given.
fn is_ordered(given: &Options) -> bool
    ensures { result ≡ table.is_ordered given.now }
{
    given.order.is_some() || given.points.is_some()
}

/// Whether an option of the seeded form was given.
fn is_seeded(given: &Options) -> bool
    ensures { result ≡ table.is_seeded given.now }
{
    given.seed.is_some() || given.depth.is_some() || given.steps.is_some()
}

/// Whether the option belongs to a run, and none of the other form was given.
fn run_takes(given: &Options, name: OptionName) -> bool
    ensures { result ≡ table.run_takes given.now name }
{
    match name {
        OptionName::Order | OptionName::Points => !is_seeded(given),
        OptionName::Limit => true,
        OptionName::Seed | OptionName::Depth | OptionName::Steps => !is_ordered(given),
        OptionName::From | OptionName::Count | OptionName::Form | OptionName::Serve => false,
    }
}

/// Whether the option belongs to a campaign.
fn campaign_takes(name: OptionName) -> bool
    ensures { result ≡ table.campaign_takes name }
{
    match name {
        OptionName::From
        | OptionName::Count
        | OptionName::Depth
        | OptionName::Steps
        | OptionName::Limit
        | OptionName::Form
        | OptionName::Serve => true,
        OptionName::Order | OptionName::Points | OptionName::Seed => false,
    }
}

/// Whether the option belongs to the campaign of the large script.
fn big_takes(name: OptionName) -> bool
    ensures { result ≡ table.big_takes name }
{
    matches!(name, OptionName::Serve)
}

/// Whether the option belongs to the exposing of a directive.
fn expose_takes(name: OptionName) -> bool
    ensures { result ≡ table.expose_takes name }
{
    match name {
        OptionName::Order | OptionName::Steps | OptionName::Limit => true,
        OptionName::Points
        | OptionName::Seed
        | OptionName::Depth
        | OptionName::From
        | OptionName::Count
        | OptionName::Form
        | OptionName::Serve => false,
    }
}

/// Whether the option belongs to the certifying of a directive.
fn certify_takes(name: OptionName) -> bool
    ensures { result ≡ table.certify_takes name }
{
    match name {
        OptionName::Steps | OptionName::Limit | OptionName::Serve => true,
        OptionName::Order
        | OptionName::Points
        | OptionName::Seed
        | OptionName::Depth
        | OptionName::From
        | OptionName::Count
        | OptionName::Form => false,
    }
}

/// Whether the option belongs to a sweep.
fn sweep_takes(name: OptionName) -> bool
    ensures { result ≡ table.sweep_takes name }
{
    match name {
        OptionName::Depth
        | OptionName::Steps
        | OptionName::Limit
        | OptionName::Form
        | OptionName::Serve => true,
        OptionName::Order
        | OptionName::Points
        | OptionName::Seed
        | OptionName::From
        | OptionName::Count => false,
    }
}
