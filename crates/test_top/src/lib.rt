//! Tests of the call by words and files, `pct`, by its public calls.
#![tactic(auto)]

#[cfg(test)]
mod calls;
#[cfg(test)]
mod gates;
#[cfg(test)]
mod meetings;
#[cfg(test)]
mod refused;
#[cfg(test)]
mod words;
