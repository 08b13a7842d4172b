//! The tests of what commands do with a script, by public calls: its runs, campaigns, directives
//! that are exposed, certified or found, and replays.
#![tactic(auto)]

#[cfg(test)]
mod campaigns;
#[cfg(test)]
mod directives;
#[cfg(test)]
mod findings;
#[cfg(test)]
mod replays;
#[cfg(test)]
mod runs;
#[cfg(test)]
mod scripts;
