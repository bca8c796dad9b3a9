// Declarations as they are shipped, and read from there: this crate holds definitions and theorems; it has no code.
#![tactic(auto)]
