//! The tests of programs whose threads ask through ports: runs, campaigns, replays and their texts.
#![tactic(auto)]

#[cfg(test)]
mod adders;
#[cfg(test)]
mod asks;
#[cfg(test)]
mod counters;
#[cfg(test)]
mod directives;
#[cfg(test)]
mod programs;
