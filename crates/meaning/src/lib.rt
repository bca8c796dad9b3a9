// What the rows of a reading are in its source: this crate holds definitions and theorems about whole reads; it has no code.
#![tactic(auto)]
