// The readers of pattern and item, which call each other. The pattern reader goes through its items in a loop, and only a bracket goes deeper.
ghost use Rattle.std.specs.Prelude.{◌≡◌, ◌*◌, drop};
ghost use Rattle.model.specs.Notation.{read_minus, read_move, read_item, read_pattern};
ghost use Rattle.importing.specs.Reading.{capped, spanned, kept_body, kept_item, kept_pattern, closing, counting, ends_first, Joined, within};

use crate::bytes::stands;
use crate::numbers::read_number;
use model::plain::MOST_LETTERS;

// What was read: where the text goes on, how many moves it means, and the highest move number in it.
#[derive(Clone, Copy)]
pub struct Span {
    pub next: usize,
    pub moves: u16,
    pub highest: u8,
}

// A number of moves, where all that are too many for a program count as one more than it has.
pub fn cap(moves: u32) -> u16
    ensures { result ≡ capped moves }
{
    moves.min(MOST_LETTERS as u32 + 1) as u16
}

// So many moves, several times.
pub fn times(count: u8, moves: u16) -> u16
    ensures { result ≡ capped (count * moves) }
{
    cap(count as u32 * moves as u32)
}

// Where an item's body begins: after the minus where one stands.
pub fn after_minus(text: &[u8], at: usize) -> usize
    ensures { drop result text.now ≡ (read_minus (drop at text.now)).rest }
{
    if stands(text, at, b'-') { at + 1 } else { at }
}

pub fn read_move(text: &[u8], at: usize) -> Option<Span>
    ensures { spanned text.now result ≡ kept_body (read_move (drop at text.now)) }
{
    let number = read_number(text, at)?;
    if number.value == 0 {
        return None;
    }
    Some(Span {
        next: number.next,
        moves: 1,
        highest: number.value,
    })
}

// A bracket whose pattern was read: it must close.
pub fn read_closing(text: &[u8], held: Option<Span>) -> Option<Span>
    ensures { spanned text.now result ≡ closing (spanned text.now held) }
{
    let span = held?;
    if !stands(text, span.next, b')') {
        return None;
    }
    Some(Span {
        next: span.next + 1,
        ..span
    })
}

// A body that was read, with the count after it where one stands.
pub fn read_count(text: &[u8], body: Option<Span>) -> Option<Span>
    ensures { spanned text.now result ≡ counting (spanned text.now body) }
{
    let span = body?;
    if !stands(text, span.next, b'^') {
        return Some(span);
    }
    let count = read_number(text, span.next + 1)?;
    Some(Span {
        next: count.next,
        moves: times(count.value, span.moves),
        ..span
    })
}

// What was read so far, and one item more.
pub fn joined(sum: Span, item: Span) -> Span
    ensures { Joined sum item result }
{
    Span {
        next: item.next,
        moves: cap(sum.moves as u32 + item.moves as u32),
        highest: sum.highest.max(item.highest),
    }
}

// An item, with brackets at most `depth` deep.
#[cycle(read_item_read_pattern)]
pub fn read_item(text: &[u8], at: usize, depth: u8) -> Option<Span>
    ensures { spanned text.now result ≡ kept_item (read_item (within depth) (drop at text.now)) }
{
    let start = after_minus(text, at);
    if !stands(text, start, b'(') {
        return read_count(text, read_move(text, start));
    }
    if depth == 0 {
        return None;
    }
    let held = read_pattern(text, start + 1, depth - 1);
    read_count(text, read_closing(text, held))
}

// Whether no item begins: the text ends, or the bracket around the pattern.
pub fn ends(text: &[u8], at: usize) -> bool
    ensures { result ≡ ends_first (drop at text.now) }
{
    text.get(at).is_none_or(|byte| *byte == b')')
}

// A pattern with brackets at most `depth` deep.
#[cycle(read_item_read_pattern)]
pub fn read_pattern(text: &[u8], at: usize, depth: u8) -> Option<Span>
    ensures { spanned text.now result ≡ kept_pattern (read_pattern depth (drop at text.now)) }
{
    let mut sum = Span {
        next: at,
        moves: 0,
        highest: 0,
    };
    if ends(text, at) {
        return Some(sum);
    }
    loop {
        let item = read_item(text, sum.next, depth)?;
        sum = joined(sum, item);
        if !stands(text, sum.next, b' ') {
            return Some(sum);
        }
        sum.next += 1;
    }
}
