//! Tests of ranks, draws, policies, shared objects and the turns of threads, by public calls.
#![tactic(auto)]

#[cfg(test)]
mod draws;
#[cfg(test)]
mod objects;
#[cfg(test)]
mod picks;
#[cfg(test)]
mod ranks;
#[cfg(test)]
mod samples;
#[cfg(test)]
mod slow;
#[cfg(test)]
mod turns;
