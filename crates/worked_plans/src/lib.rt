//! The worked rows of certificates and reports: this crate's tests are the worked rows of `plan_certificate` and
//! `report_text` that need no table of costs; it has no code. What needs one is run through the whole program.
//!
//! They stand apart so that no crate of code is proved twice. They use public calls alone.
#![tactic(auto)]

#[cfg(test)]
mod certificates;
#[cfg(test)]
mod reports;
