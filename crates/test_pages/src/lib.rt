//! Tests of the texts of a catalogue in pages: each case is the text of a worked row, whole, cut, or with a byte changed.
#![tactic(auto)]

#[cfg(test)]
mod texts;
