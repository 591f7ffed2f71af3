// Import (specification 6.17): the moves that a pattern means, from its text, in the answer area. The text is read whole first, so that nothing is written
// before every test is made.
ghost use Rattle.model.specs.Stated.{packed_as};
ghost use Rattle.model.specs.Notation.{import};
ghost use Rattle.importing.specs.Import.{TextDone, TextAnswered, ImportPromise};

use crate::reading::{Span, read_pattern};
use crate::writing::write_pattern;
use images::tables;
use model::answers::Refusal;
use model::plain::MOST_LETTERS;

// How deep brackets nest.
pub const MOST_NESTED: u8 = 8;

// The pattern that the whole text is.
pub fn read_text(text: &[u8]) -> Option<Span>
    ensures { TextDone text.now result }
{
    let span = read_pattern(text, 0, MOST_NESTED)?;
    if span.next < text.len() {
        return None;
    }
    Some(span)
}

// A text under a table of `size` moves.
pub fn import_text(text: &[u8], size: u8, answer: &mut [u8]) -> Result<usize, Refusal>
    ensures { TextAnswered text.now size answer.old answer.new result }
{
    let span = read_text(text).ok_or(Refusal::NotPattern)?;
    if size < span.highest {
        return Err(Refusal::ImageField);
    }
    let moves = span.moves as usize;
    if MOST_LETTERS < moves {
        return Err(Refusal::TooManyMoves);
    }
    if answer.len() < moves {
        return Err(Refusal::AnswerShort);
    }
    write_pattern(text, 0, MOST_NESTED, answer, 0);
    Ok(moves)
}

pub fn import(table: &[u8], text: &[u8], answer: &mut [u8]) -> Result<usize, Refusal>
    ensures { ImportPromise table.now text.now answer.old answer.new (packed_as result) }
{
    let size = tables::table_size(table)?;
    import_text(text, size, answer)
}
