// Levels follow the source's lines: this crate holds definitions and theorems about whole reads; it has no code.
#![tactic(auto)]
