// The rules of a grammar as they are shipped: this crate holds definitions and theorems about them; it has no code.
#![tactic(auto)]
