// What is stored and loaded back is what was there: this crate holds theorems about storing and restoring; it has no code.
#![tactic(auto)]
