//! Tests in Rattle: `Kit` with its ports, and `run_boxed` for bodies in boxes.
//!
//! What is proved, by call and clause; in parentheses the definitions:
//!
//! - Boxed bodies make the run over what they post; refused exactly where a number isn't that of
//!   the threads, or else at the order's first wrong place: `run_boxed`: `run`, `played`,
//!   `wrong_count`, `not_an_order`; `Kit::open`: `wrong_count`, `not_an_order`.
//! - A kit opens with the deal, order, points and limit given; its first seat serves all threads,
//!   each of which owes a post: `Kit::open`: `made`, `of`, `view`, `all`, `owe`.
//! - A port's ask is answered by a step of the one book, with the ask that was given; Over where an
//!   outcome stood, and from then on the same; its end is posted where none stands; what no ask
//!   changes of a port stays the same: `Port::ask`: `home`, `back`, `row`, `later` (`AskTells`,
//!   `IsAnsweredAsk`, `IsToldOver`, `home_of`); `Port::end`: `home`, `back`, `ended`.
//! - An ask by an operation's own name is that ask, and a wait or a meeting its two asks:
//!   `Port::read`, `Port::write`, `Port::add`, `Port::lock`, `Port::unlock`, `Port::signal`,
//!   `Port::broadcast`, `Port::down`, `Port::up`, `Port::join`, `Port::check`: `home`, `row`
//!   (`AskTells`); `Port::wait`, `Port::meet`: `home`, `row` (`PairTells`).
//! - A kit's book has, for every thread, exactly what its port had: `Kit::port`: `left`, `right`;
//!   `Kit::split`: `left`, `right`; `Kit::join`: `view`, `own`, `theirs`; `Kit::close`: `making`,
//!   `lawful`, `own`.
#![tactic(auto)]

mod asked;
mod asking;
mod asks;
mod boxed;
mod counts;
mod error;
mod kit;
mod port;
mod run;

pub use asked::Over;
pub use error::KitError;
pub use kit::Kit;
pub use port::Port;
pub use run::{BoxedRun, run_boxed};
