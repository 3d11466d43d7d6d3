//! Definitions and laws of numbers, bytes and lists that several crates cite. The crate has no code: everything is in `specs/`.
//!
//! What std already has is cited from there; a law about the definitions of a crate is in that crate's `specs/laws/`.
#![tactic(auto)]
