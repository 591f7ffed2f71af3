// The moves of patterns, items and bodies, laid out in an area. As when they are read, the writers call each other, and only a bracket goes deeper. An item
// that means no move is passed over: its text is read, and nothing of it is laid out.
ghost use Rattle.std.specs.Prelude.{◌≡◌, ◌+◌, length, drop};
ghost use Rattle.model.specs.Notation.{read_body, read_item, read_pattern};
ghost use Rattle.importing.specs.Reading.{within};
ghost use Rattle.importing.specs.Laying.{Repeatable, Repeats, Finishes, ItemFits, ItemLaid, BodyFits, BodyLaid, PatternFits, PatternLaid};

use crate::bytes::stands;
use crate::reading::{after_minus, ends, read_item};
use areas::bytes::copy_on;
use engine::words::invert;

// Where the text goes on, and where the moves end.
#[derive(Clone, Copy)]
pub struct Laid {
    pub next: usize,
    pub end: usize,
}

// Lays out the bytes from a place on again and again, up to `end`.
pub fn repeat(area: &mut [u8], from: usize, count: usize, end: usize)
    requires { Repeatable from count end (length area.old) }
    ensures length { length area.new ≡ length area.old }
    ensures repeats { Repeats area.old from count end area.new }
{
    for at in (from + count..end).step_by(count) {
        copy_on(area, from, count, at);
    }
}

// A body's moves stand once: they are laid out as often as the count says, then undone where there is a minus.
pub fn finish(area: &mut [u8], from: usize, count: usize, end: usize, minus: bool)
    requires { Repeatable from count end (length area.old) }
    ensures length { length area.new ≡ length area.old }
    ensures finishes { Finishes area.old from count end minus area.new }
{
    repeat(area, from, count, end);
    if minus {
        invert(&mut area[from..end]);
    }
}

// The moves of the item at a place of the text, from a place of the area on.
#[cycle(write_body_write_item_write_pattern)]
pub fn write_item(text: &[u8], at: usize, depth: u8, area: &mut [u8], from: usize) -> Laid
    requires { ItemFits (read_item (within depth) (drop at text.now)) from (length area.old) }
    ensures length { length area.new ≡ length area.old }
    ensures item { ItemLaid (read_item (within depth) (drop at text.now)) text.now area.old from area.new result }
{
    let item = read_item(text, at, depth).unwrap();
    let end = from + item.moves as usize;
    let laid = Laid {
        next: item.next,
        end,
    };
    if end == from {
        return laid;
    }
    let minus = stands(text, at, b'-');
    let start = after_minus(text, at);
    let once = write_body(text, start, depth, item.highest, area, from);
    finish(area, from, once - from, end, minus);
    laid
}

// The moves of the body at a place of the text, once, from a place of the area on; where they end. Without a bracket it is the move of its highest number.
#[cycle(write_body_write_item_write_pattern)]
pub fn write_body(
    text: &[u8],
    at: usize,
    depth: u8,
    highest: u8,
    area: &mut [u8],
    from: usize,
) -> usize
    requires { BodyFits (read_body (within depth) (drop at text.now)) highest from (length area.old) }
    ensures length { length area.new ≡ length area.old }
    ensures body { BodyLaid (read_body (within depth) (drop at text.now)) area.old from area.new result }
{
    if stands(text, at, b'(') {
        return write_pattern(text, at + 1, depth - 1, area, from);
    }
    area[from] = highest;
    from + 1
}

// The moves of the pattern at a place of the text, from a place of the area on; where they end.
#[cycle(write_body_write_item_write_pattern)]
pub fn write_pattern(text: &[u8], at: usize, depth: u8, area: &mut [u8], from: usize) -> usize
    requires { PatternFits (read_pattern depth (drop at text.now)) from (length area.old) }
    ensures length { length area.new ≡ length area.old }
    ensures pattern { PatternLaid (read_pattern depth (drop at text.now)) area.old from area.new result }
{
    if ends(text, at) {
        return from;
    }
    let mut laid = Laid {
        next: at,
        end: from,
    };
    loop {
        laid = write_item(text, laid.next, depth, area, laid.end);
        if !stands(text, laid.next, b' ') {
            return laid.end;
        }
        laid.next += 1;
    }
}
