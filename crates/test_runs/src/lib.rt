//! The tests of the libraries below the commands, by their public calls: files, streams and gates,
//! turns at a lock, runs of bodies, data races, orders of mutexes, and the kit.
#![tactic(auto)]

#[cfg(test)]
mod boxed;
#[cfg(test)]
mod data_races;
#[cfg(test)]
mod deals;
#[cfg(test)]
mod mutex_orders;
#[cfg(test)]
mod outside;
#[cfg(test)]
mod ports;
#[cfg(test)]
mod runs;
#[cfg(test)]
mod samples;
#[cfg(test)]
mod steps;
#[cfg(test)]
mod turns;
