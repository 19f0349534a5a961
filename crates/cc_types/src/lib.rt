//! Well-formed programs.
//!
//! [`check`] answers the broken static rule with the least line, and at one line with the least number; or a [`Checked`], which
//! keeps that its program is spelled by some tokens and breaks no rule, and holds the core program that the definition makes of it.
//!
//! `Program` in `specs/` says which programs are well formed, and `Elaboration` what is made of one. The rules are this project's
//! own.
//!
//! The crate knows how items are read (`cc_functions`), and it alone says what a checked program is. It must know nothing of code, of steps and
//! of files.
#![tactic(auto)]

mod checked;
mod elaboration;

pub use checked::{Checked, check};
