//! Campaigns: runs of a script over seeds, and a row for each.
//!
//! What is proved, by call and clause; in parentheses the definitions:
//!
//! - Row i is the seed (first + i) modulo 2^64 with the verdict and the length of the run under the
//!   priorities that it draws, whoever serves, and there is one such list: `campaign`, its clause;
//!   `campaign_by`, its clause (`rows_of`, `seed_at`, `row_of_seed`); the law `one_list_of_rows`
//!   (`EachHasOneList`).
#![tactic(auto)]

mod batches;
mod common;
mod one_list;
mod seeds;

pub use one_list::one_list_of_rows;
pub use seeds::{campaign, campaign_by};
