//! The commands, each in a module of its own.

pub mod big;
pub mod campaign_command;
pub mod certify;
pub mod expose;
pub mod find;
pub mod locks;
pub mod races;
pub mod replay;
pub mod run;
pub mod sweep_command;
