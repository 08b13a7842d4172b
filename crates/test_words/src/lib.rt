//! Tests of the words of asks and verdicts, traces, reports, rankings and directives, by public
//! calls.
#![tactic(auto)]

#[cfg(test)]
mod asks;
#[cfg(test)]
mod directives;
#[cfg(test)]
mod failures;
#[cfg(test)]
mod long_traces;
#[cfg(test)]
mod reports;
#[cfg(test)]
mod samples;
#[cfg(test)]
mod sweeps;
#[cfg(test)]
mod traces;
#[cfg(test)]
mod verdicts;
#[cfg(test)]
mod words;
