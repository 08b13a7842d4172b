//! Tests of the crates of scripts by their public calls: texts, what is printed of them, their code
//! and their bodies.
#![tactic(auto)]

#[cfg(test)]
mod bodies;
#[cfg(test)]
mod compiling;
#[cfg(test)]
mod large;
#[cfg(test)]
mod parsing;
#[cfg(test)]
mod printing;
