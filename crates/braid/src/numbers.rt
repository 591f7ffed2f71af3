// How an answer is told in numbers: 0 or the refusal's number, then four values.
ghost use Rattle.std.specs.Prelude.{◌≡◌};
ghost use Rattle.model.specs.Stated.{refusal, reversed, cleared_as, compared, compared_signed, chained, remaining, checked, packed_as, listed_as};
ghost use Rattle.model.specs.Stated.{tray_compared};
ghost use Rattle.braid.specs.Told.{told, sizes_told, passed_told, verdict_told, signed_told, chain_told, remainder_told, passage_told, bytes_told, counts_told};
ghost use Rattle.braid.specs.Told.{logs_told};

use model::answers::{
    Chained, Checked, Compared, ComparedSigned, Refusal, Remaining, Reversed, Ways,
};
use numbering::refusals::refusal_numbers;

// Kept (1): (a) C is told the outcome as this number, 0 of an answer, which `told` states.
#[derive(Clone, Copy)]
pub struct Numbers {
    pub code: u8,
    pub first: u64,
    pub second: u64,
    pub third: u64,
    pub fourth: u64,
}

// An answer's four values.
pub(crate) fn answered(first: u64, second: u64, third: u64, fourth: u64) -> Numbers
    ensures { result ≡ record { code = 0; first = first; second = second; third = third; fourth = fourth } }
{
    Numbers {
        code: 0,
        first,
        second,
        third,
        fourth,
    }
}

// A refusal is told the same whatever the answer would have been.
pub(crate) fn of_refusal(refused: Refusal) -> Numbers
    ensures { result ≡ told passed_told (refusal refused) }
{
    let told = refusal_numbers(refused);
    Numbers {
        code: told.number,
        first: told.place as u64,
        second: told.a as u64,
        third: told.b as u64,
        fourth: told.c as u64,
    }
}

// Kept (2): (d) each answer has values of its own, and a refusal is told by one function: one function over all answers would only take the arms as closures.
pub(crate) fn of_reversed(answer: Result<Reversed, Refusal>) -> Numbers
    ensures { result ≡ told sizes_told (reversed answer) }
{
    answer.map_or_else(
        of_refusal,
        |words| answered(
            words.numerator as u64,
            words.denominator as u64,
            words.steps as u64,
            0,
        ),
    )
}

pub(crate) fn of_cleared(answer: Result<(), Refusal>) -> Numbers
    ensures { result ≡ told passed_told (cleared_as answer) }
{
    answer.map_or_else(of_refusal, |_| answered(0, 0, 0, 0))
}

pub(crate) fn of_compared(answer: Result<Compared, Refusal>) -> Numbers
    ensures { result ≡ told verdict_told (compared answer) }
{
    match answer {
        Err(refusal) => of_refusal(refusal),
        Ok(Compared::Same { steps, .. }) => answered(0, steps as u64, 0, 0),
        Ok(Compared::Different { steps }) => answered(1, steps as u64, 0, 0),
    }
}

pub(crate) fn of_compared_signed(answer: Result<ComparedSigned, Refusal>) -> Numbers
    ensures { result ≡ told signed_told (compared_signed answer) }
{
    match answer {
        Err(refusal) => of_refusal(refusal),
        Ok(ComparedSigned::Same { first, second }) => answered(0, first as u64, second as u64, 0),
        Ok(ComparedSigned::Different { first, second }) => {
            answered(1, first as u64, second as u64, 0)
        }
    }
}

pub(crate) fn of_chained(answer: Result<Chained, Refusal>) -> Numbers
    ensures { result ≡ told chain_told (chained answer) }
{
    match answer {
        Err(refusal) => of_refusal(refusal),
        Ok(
            Chained::Listed {
                steps,
                entries,
                bytes,
            },
        ) => answered(0, steps as u64, entries as u64, bytes as u64),
        Ok(Chained::Unlisted { steps }) => answered(1, steps as u64, 0, 0),
    }
}

pub(crate) fn of_remaining(answer: Result<Remaining, Refusal>) -> Numbers
    ensures { result ≡ told remainder_told (remaining answer) }
{
    match answer {
        Err(refusal) => of_refusal(refusal),
        Ok(Remaining::Moves { count, steps }) => answered(0, count as u64, steps as u64, 0),
        Ok(Remaining::Nothing { steps }) => answered(1, 0, steps as u64, 0),
    }
}

pub(crate) fn of_checked(answer: Result<Checked, Refusal>) -> Numbers
    ensures { result ≡ told passage_told (checked answer) }
{
    match answer {
        Err(refusal) => of_refusal(refusal),
        Ok(Checked::Joins) => answered(0, 0, 0, 0),
        Ok(Checked::Breaks { entry }) => answered(1, entry as u64, 0, 0),
        Ok(Checked::EndsElsewhere) => answered(2, 0, 0, 0),
    }
}

pub(crate) fn of_packed(answer: Result<usize, Refusal>) -> Numbers
    ensures { result ≡ told bytes_told (packed_as answer) }
{
    answer.map_or_else(of_refusal, |bytes| answered(bytes as u64, 0, 0, 0))
}

pub(crate) fn of_ways(answer: Result<Ways, Refusal>) -> Numbers
    ensures { result ≡ told counts_told (listed_as answer) }
{
    answer.map_or_else(
        of_refusal,
        |listing| answered(listing.words as u64, listing.bytes as u64, 0, 0),
    )
}

pub(crate) fn of_tray_compared(answer: Result<u8, Refusal>) -> Numbers
    ensures { result ≡ told logs_told (tray_compared answer) }
{
    answer.map_or_else(of_refusal, |logs| answered(logs as u64, 0, 0, 0))
}
