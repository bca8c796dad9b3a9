// Each operation's answer as document 01's number, place and table number.
#![tactic(auto)]

ghost use Rattle.std.specs.Prelude.{◌≡◌, [], ◌∷◌, ◌++◌, take, get_or};
ghost use Rattle.validation.specs.Faults.{flaw_numbers, validity_numbers};
ghost use Rattle.validation.specs.Walk.{fault_listing_numbers};
ghost use Rattle.usage.specs.Report.{listing_numbers, marking_numbers};
ghost use Rattle.pruning.specs.Pruned.{pruning_numbers};
ghost use Rattle.storing.specs.Storing.{storing_numbers};
ghost use Rattle.restoring.specs.Restoring.{restoring_numbers};
ghost use Rattle.shipping.specs.Shipping.{shipment_numbers};
ghost use Rattle.values.specs.Value.{valuation_numbers};
ghost use Rattle.loading.specs.Load.{judgement_numbers};
ghost use Rattle.numbers.specs.Numbers.{told_numbers, answer_spot};

use grammar::{Refusal, Told};
use loading::LoadError;
use places::Spot;
use pruning::PruningError;
use restoring::RestoringError;
use storing::StoringError;
use usage::{ListingError, MarkingError};
use validation::{FaultsError, Flaw, ValidityError};
use values::ValuationError;

pub fn of_flaw(f: Flaw) -> Told
    ensures { told_numbers result ≡ flaw_numbers f ++ (0 ∷ []) }
{
    match f {
        Flaw::NoStartRule => Told {
            number: 30,
            from: 0,
            to: 0,
            table: 0,
        },
        Flaw::InvalidStartRule(a, b) => Told {
            number: 31,
            from: a,
            to: b,
            table: 0,
        },
        Flaw::UnknownRuleRef(a, b) => Told {
            number: 32,
            from: a,
            to: b,
            table: 0,
        },
        Flaw::UnknownTokenRef(a, b) => Told {
            number: 33,
            from: a,
            to: b,
            table: 0,
        },
        Flaw::UnknownPrecToken(_, _) => Told {
            number: 33,
            from: 0,
            to: 0,
            table: 0,
        },
        Flaw::NoPrecForToken(_, _) => Told {
            number: 34,
            from: 0,
            to: 0,
            table: 0,
        },
        Flaw::UnknownEppKey(a, b) => Told {
            number: 35,
            from: a,
            to: b,
            table: 0,
        },
    }
}

pub fn of_judgement(j: Result<u32, LoadError>) -> Told
    ensures { told_numbers result ≡ judgement_numbers j }
{
    match j {
        Ok(i) => Told {
            number: 0,
            from: i,
            to: i,
            table: 0,
        },
        Err(LoadError::NotRead(f)) => grammar::tell(f),
        Err(LoadError::NotValid(f)) => of_flaw(f),
    }
}

pub fn of_validity(v: Result<(), ValidityError>) -> Told
    ensures { told_numbers result ≡ validity_numbers v ++ (0 ∷ []) }
{
    match v {
        Ok(()) => Told {
            number: 0,
            from: 0,
            to: 0,
            table: 0,
        },
        Err(ValidityError::UnsoundTables) => Told {
            number: 44,
            from: 0,
            to: 0,
            table: 0,
        },
        Err(ValidityError::Invalid(f)) => of_flaw(f),
    }
}

pub fn of_listing(l: Result<usize, ListingError>) -> Told
    ensures { told_numbers result ≡ take 4 (listing_numbers l) }
{
    match l {
        Ok(_) => Told {
            number: 0,
            from: 0,
            to: 0,
            table: 0,
        },
        Err(ListingError::OfUnsound) => Told {
            number: 44,
            from: 0,
            to: 0,
            table: 0,
        },
        Err(ListingError::OfInvalid(f)) => of_flaw(f),
        Err(ListingError::NoWords) => Told {
            number: 42,
            from: 0,
            to: 0,
            table: 11,
        },
        Err(ListingError::NoRoom) => Told {
            number: 42,
            from: 0,
            to: 0,
            table: 12,
        },
    }
}

// How many rows the report has; 0 after a refusal.
pub fn listed(l: Result<usize, ListingError>) -> usize
    ensures { result ≡ get_or (listing_numbers l) 4 0 }
{
    l.unwrap_or(0)
}

pub fn of_marking(m: Result<(), MarkingError>) -> Told
    ensures { told_numbers result ≡ marking_numbers m }
{
    match m {
        Ok(()) => Told {
            number: 0,
            from: 0,
            to: 0,
            table: 0,
        },
        Err(MarkingError::MarksUnsound) => Told {
            number: 44,
            from: 0,
            to: 0,
            table: 0,
        },
        Err(MarkingError::MarksInvalid(f)) => of_flaw(f),
        Err(MarkingError::MarksNoWords) => Told {
            number: 42,
            from: 0,
            to: 0,
            table: 11,
        },
    }
}

pub fn of_pruning(p: Result<(), PruningError>) -> Told
    ensures { told_numbers result ≡ pruning_numbers p }
{
    match p {
        Ok(()) => Told {
            number: 0,
            from: 0,
            to: 0,
            table: 0,
        },
        Err(PruningError::PruningUnsound) => Told {
            number: 44,
            from: 0,
            to: 0,
            table: 0,
        },
        Err(PruningError::PruningInvalid(f)) => of_flaw(f),
        Err(PruningError::PruningNoWords) => Told {
            number: 42,
            from: 0,
            to: 0,
            table: 11,
        },
    }
}

pub fn of_fault_listing(l: Result<usize, FaultsError>) -> Told
    ensures { told_numbers result ≡ take 4 (fault_listing_numbers l) }
{
    match l {
        Ok(_) => Told {
            number: 0,
            from: 0,
            to: 0,
            table: 0,
        },
        Err(FaultsError::FaultsUnsound) => Told {
            number: 44,
            from: 0,
            to: 0,
            table: 0,
        },
        Err(FaultsError::FaultsNoRoom) => Told {
            number: 42,
            from: 0,
            to: 0,
            table: 14,
        },
    }
}

// How many faults there are; 0 after a refusal.
pub fn faulted(l: Result<usize, FaultsError>) -> usize
    ensures { result ≡ get_or (fault_listing_numbers l) 4 0 }
{
    l.unwrap_or(0)
}

pub fn of_valuation(v: Result<usize, ValuationError>) -> Told
    ensures { told_numbers result ≡ take 4 (valuation_numbers v) }
{
    match v {
        Ok(_) => Told {
            number: 0,
            from: 0,
            to: 0,
            table: 0,
        },
        Err(ValuationError::OfUnsoundTables) => Told {
            number: 44,
            from: 0,
            to: 0,
            table: 0,
        },
        Err(ValuationError::PastCount) => Told {
            number: 44,
            from: 0,
            to: 0,
            table: 0,
        },
        Err(ValuationError::NotString) => Told {
            number: 44,
            from: 0,
            to: 0,
            table: 0,
        },
        Err(ValuationError::NoTextRoom) => Told {
            number: 42,
            from: 0,
            to: 0,
            table: 13,
        },
    }
}

// How many bytes the value has; 0 after a refusal.
pub fn written(v: Result<usize, ValuationError>) -> usize
    ensures { result ≡ get_or (valuation_numbers v) 4 0 }
{
    v.unwrap_or(0)
}

fn at_start(number: u32, table: u32) -> Told
    ensures { told_numbers result ≡ number ∷ 0 ∷ 0 ∷ table ∷ [] }
{
    Told {
        number,
        from: 0,
        to: 0,
        table,
    }
}

pub fn of_storing(s: Result<u32, StoringError>) -> Told
    ensures { told_numbers result ≡ take 4 (storing_numbers s) }
{
    match s {
        Ok(_) => at_start(0, 0),
        Err(StoringError::UnknownKind) => at_start(43, 0),
        Err(StoringError::StoringUnsound) => at_start(44, 0),
        Err(StoringError::NoBlocks) => at_start(42, 18),
    }
}

// How many blocks were written.
pub fn stored_blocks(s: Result<u32, StoringError>) -> usize
    ensures { result ≡ get_or (storing_numbers s) 4 0 }
{
    s.unwrap_or(0) as usize
}

pub fn of_restoring(r: Result<(), RestoringError>) -> Told
    ensures { told_numbers result ≡ restoring_numbers r }
{
    match r {
        Ok(()) => at_start(0, 0),
        Err(RestoringError::NotWhole) => at_start(60, 0),
        Err(RestoringError::BadNumber) => at_start(61, 0),
        Err(RestoringError::BadCheck) => at_start(62, 0),
        Err(RestoringError::BadContent) => at_start(63, 0),
        Err(RestoringError::BadSizes) => at_start(45, 0),
        Err(RestoringError::NoSpace(k)) => at_start(42, k),
        Err(RestoringError::RestoringUnsound) => at_start(44, 0),
    }
}

pub fn of_shipment(s: Result<u32, Refusal>) -> Told
    ensures { told_numbers result ≡ take 4 (shipment_numbers s) }
{
    match s {
        Ok(_) => at_start(0, 0),
        Err(f) => grammar::tell(f),
    }
}

// How many bytes were sent.
pub fn sent_bytes(s: Result<u32, Refusal>) -> usize
    ensures { result ≡ get_or (shipment_numbers s) 4 0 }
{
    s.unwrap_or(0) as usize
}

// Line and column of the start of an answer's place.
pub fn spot_of(src: &[u8], t: Told) -> Spot
    ensures { result ≡ answer_spot src.now (told_numbers t) }
{
    let from = t.from;
    places::locate(src, from)
}
