//! Gates, where threads can be held up before each of their posts: the trait `Gate`, one that holds
//! nobody, and one at which two threads meet.
//!
//! What is proved, by call and clause; in parentheses the definitions: `PairGate::met` reports no
//! meeting where threads look no times, by what `PairGate::new` was given (`GateState`). Whom a gate
//! holds no clause says, that of `OpenGate::new` neither.
#![tactic(auto)]

pub mod gates;
mod happening;
mod meeting;

pub use gates::{Gate, OpenGate, PairGate};
