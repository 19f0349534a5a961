//! The tree stepper: a run of the source definition, a step at a time, by whichever thread its caller names.
//!
//! A [`Walk`] stands for a configuration of the definition, with its threads and objects numbered as the run numbers its names:
//! processors, and the threads and objects of each processor, from 0 in the order made.
//!
//! The crate knows the machine of numbers and its law (`numbered_runs`), threads of code, and checked programs. It must know nothing of
//! schedules, of reports and of journals.
#![tactic(auto)]

mod answer;
mod arguments;
mod asks;
mod effect;
mod holders;
mod limits;
mod live;
mod news;
mod parameters;
mod posts;
mod printing;
mod run;
mod sent;
mod start;
mod stop;
mod table;
mod waits;
mod walk;

pub use cc_ops::ThreadNo;
pub use news::{Awaited, News};
pub use walk::{Stepped, Walk};
