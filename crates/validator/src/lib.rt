//! The validator: it answers each event, keeps the state that it needs for that, and orders certificates. It has no disk.
#![tactic(auto)]

mod config;
mod loading;
mod making;
mod newness;
mod parents;
mod proposing;
mod ready;
mod taking;
mod validator;

pub use admission::{Refusal, Step};
pub use checkpoint::LoadError;
pub use config::Config;
pub use loading::Loading;
pub use validator::Validator;
