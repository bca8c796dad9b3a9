// Pruning: rows stay that the start, an excused rule or an excused token keeps. Definitions and theorems; the code is crate `pruner`.
#![tactic(auto)]

use validation::Flaw;

// An enum holds no array, so the counts that are left are answered beside it.
#[derive(Clone, Copy)]
pub enum PruningError {
    PruningUnsound,
    PruningInvalid(Flaw),
    // Too few words for the work bits.
    PruningNoWords,
}
