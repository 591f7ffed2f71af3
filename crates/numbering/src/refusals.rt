// A refusal in numbers, as the bench reader and C are told it.
ghost use Rattle.model.specs.Outcome.{unplaced, pair_of, triple_of, mirror_triple_of, the_set};
ghost use Rattle.model.specs.Stated.{numbered, placed};
ghost use Rattle.numbering.specs.Refusals.{RefusalTold};

use model::answers::{Pair, Place, Refusal, Triple};

// `place` is what the place is: 0 none or the programs, 1 a pair, 2 a triple of the table, 3 a triple of the mirror, 4 the set. The first `count` of
// `number`, `a`, `b` and `c` are the numbers to tell; the others are 0.
// Kept (1): (a) C is told `number` and `place` as these numbers, which `numbers_told` states.
// Kept (6): (a) C is told each of the four fields, so that they are no slice. `count` is what the reader's line goes by.
#[derive(Clone, Copy)]
pub struct RefusalNumbers {
    pub number: u8,
    pub place: u8,
    pub a: u8,
    pub b: u8,
    pub c: u8,
    pub count: usize,
}

pub(crate) fn alone(number: u8) -> RefusalNumbers
    ensures { RefusalTold result number unplaced }
{
    RefusalNumbers {
        number,
        place: 0,
        a: 0,
        b: 0,
        c: 0,
        count: 1,
    }
}

pub(crate) fn with_pair(number: u8, pair: Pair) -> RefusalNumbers
    ensures { RefusalTold result number (pair_of pair.a pair.b) }
{
    RefusalNumbers {
        place: 1,
        a: pair.a,
        b: pair.b,
        count: 3,
        ..alone(number)
    }
}

pub(crate) fn with_triple(number: u8, triple: Triple) -> RefusalNumbers
    ensures { RefusalTold result number (triple_of triple.a triple.b triple.c) }
{
    RefusalNumbers {
        place: 2,
        a: triple.a,
        b: triple.b,
        c: triple.c,
        count: 4,
        ..alone(number)
    }
}

pub(crate) fn with_mirror_triple(number: u8, triple: Triple) -> RefusalNumbers
    ensures { RefusalTold result number (mirror_triple_of triple.a triple.b triple.c) }
{
    RefusalNumbers {
        place: 3,
        ..with_triple(number, triple)
    }
}

pub(crate) fn of_set(number: u8) -> RefusalNumbers
    ensures { RefusalTold result number the_set }
{
    RefusalNumbers {
        place: 4,
        ..alone(number)
    }
}

pub(crate) fn with_place(number: u8, place: Place) -> RefusalNumbers
    ensures { RefusalTold result number (placed place) }
{
    match place {
        Place::Programs => alone(number),
        Place::Set => of_set(number),
        Place::Triple(triple) => with_triple(number, triple),
        Place::MirrorTriple(triple) => with_mirror_triple(number, triple),
    }
}

pub fn refusal_numbers(refusal: Refusal) -> RefusalNumbers
    ensures { RefusalTold result (numbered refusal).0 (numbered refusal).1 }
{
    match refusal {
        Refusal::TableEnds => alone(1),
        Refusal::TableField => alone(2),
        Refusal::TableTail => alone(3),
        Refusal::ImageEnds => alone(4),
        Refusal::ImageField => alone(5),
        Refusal::ImageTail => alone(6),
        Refusal::BackMove => alone(7),
        Refusal::UnequalWeights(pair) => with_pair(8, pair),
        Refusal::CubeFails(triple) => with_triple(9, triple),
        Refusal::OpenPair(pair) => with_pair(10, pair),
        Refusal::AllowanceUsed(place) => with_place(11, place),
        Refusal::WorkspaceShort(place) => with_place(12, place),
        Refusal::AnswerShort => alone(13),
        Refusal::NotBraidTable => alone(15),
        Refusal::NoMirror(pair) => with_pair(16, pair),
        Refusal::MirrorFails(triple) => with_mirror_triple(17, triple),
        Refusal::OtherNumbers => alone(18),
        Refusal::NotPattern => alone(19),
        Refusal::TooManyMoves => alone(20),
        Refusal::SetOpenPair(pair) => with_pair(21, pair),
        Refusal::SetTooLarge => alone(22),
        Refusal::TooManyLogs => alone(23),
        Refusal::NotTray => alone(24),
    }
}
