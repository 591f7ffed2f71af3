ghost use Rattle.std.specs.Prelude.{◌≡◌, ◌-◌, ◌≤◌, ◌<◌, length, get_or};
ghost use Rattle.model.specs.Word.{inverse};
ghost use Rattle.engine.specs.Gap.{word_at, Searched, AtLeftmost};
ghost use Rattle.cells.specs.Stands.{Ready};
ghost use Rattle.engine.specs.Turn.{cell_letters, complements, complements_length, CellFits, CellsFit, PairAt, Pushed, TurnMeans};

use crate::gap::{Gap, seek};
use crate::letter::turned;
use cells::layout::{UNDEFINED_LENGTH, cell_at};
use model::answers::{Pair, Stop};
use model::plain::BACK;

// What the next word of a reversing comes to.
#[derive(Clone, Copy)]
pub enum Turn {
    Final(Gap),
    Undefined(Pair),
    Stopped(Stop),
    Stepped { gap: Gap, pair: Pair },
}

// Writes the word of a cell just before `right`, from its last letter on; the place where it begins.
// Kept (3): (b) with a `for` over the slices here and in `push_inverse`, tried and proved, a step takes 1.16 to 1.25 times Rust's from 500 moves on (bar 1.1).
pub fn push_word(bytes: &mut [u8], right: usize, cells: &[u8], at: usize) -> usize
    requires { CellFits cells.now at bytes.old right }
    ensures place { result ≡ right - get_or cells.now at 0 }
    ensures pushed { Pushed (cell_letters cells.now at) bytes.old right (get_or cells.now at 0) bytes.new }
{
    let mut next = right;
    let mut i = cells[at] as usize;
    while right - next < cells[at] as usize {
        next -= 1;
        bytes[next] = cells[at + i];
        i -= 1;
    }
    next
}

// Writes the inverse of the word of a cell just before `right`; the place where it begins.
// Kept (3): (b) as `push_word`. The length is read anew each time: the compiler lays out for long words a loop whose length it knows, and most have one or two.
pub fn push_inverse(bytes: &mut [u8], right: usize, cells: &[u8], at: usize) -> usize
    requires { CellFits cells.now at bytes.old right }
    ensures place { result ≡ right - get_or cells.now at 0 }
    ensures pushed { Pushed (inverse (cell_letters cells.now at)) bytes.old right (get_or cells.now at 0)
        bytes.new }
{
    let mut next = right;
    let mut i: usize = 0;
    while i < cells[at] as usize {
        next -= 1;
        bytes[next] = turned(cells[at + 1 + i]);
        i += 1;
    }
    next
}

// Writes what a step puts in place of a site just before `right`: the word of one cell, and behind it the inverse of the other's; the place where it begins.
pub fn push_complements(
    bytes: &mut [u8],
    right: usize,
    cells: &[u8],
    to: usize,
    from: usize,
) -> usize
    requires { CellsFit cells.now to from bytes.old right }
    ensures place { result ≡ right - complements_length cells.now to from }
    ensures pushed { Pushed (complements cells.now to from) bytes.old right (complements_length cells.now to from)
        bytes.new }
{
    let middle = push_inverse(bytes, right, cells, from);
    push_word(bytes, middle, cells, to)
}

// The two letters of a site, of which the back letter is at `at` and the forward letter at `next`.
pub fn pair_at(bytes: &[u8], at: usize, next: usize) -> Pair
    requires at { at < length bytes.now }
    requires next { next < length bytes.now }
    requires back { 128 ≤ get_or bytes.now at 0 }
    ensures { PairAt bytes.now at next result.a result.b }
{
    Pair {
        a: bytes[at] - BACK,
        b: bytes[next],
    }
}

// One step at the leftmost site, or why there is none; `remaining` steps of the budget are left.
pub fn step(cells: &[u8], bytes: &mut [u8], site: Gap, remaining: u16) -> Turn
    requires site { AtLeftmost bytes.old site.left site.right }
    requires ready { Ready cells.now (word_at bytes.old site.left site.right) }
    ensures length { length bytes.new ≡ length bytes.old }
    ensures step { TurnMeans cells.now (word_at bytes.old site.left site.right) remaining bytes.new result }
{
    let at = site.left - 1;
    let pair = pair_at(bytes, at, site.right);
    let to = cell_at(pair.a, pair.b);
    let from = cell_at(pair.b, pair.a);
    let x = cells[to] as usize;
    let y = cells[from] as usize;
    if x == UNDEFINED_LENGTH {
        return Turn::Undefined(pair);
    }
    if remaining == 0 {
        return Turn::Stopped(Stop::Budget);
    }
    if site.right + 1 - at < x + y {
        return Turn::Stopped(Stop::Room);
    }
    let right = push_complements(bytes, site.right + 1, cells, to, from);
    Turn::Stepped {
        gap: Gap { left: at, right },
        pair,
    }
}

// The search for the leftmost site, then the step there. No site begins before the place of the search, so that what it finds is the leftmost one.
pub fn advance(cells: &[u8], bytes: &mut [u8], gap: Gap, remaining: u16) -> Turn
    requires searched { Searched bytes.old gap.left gap.right }
    requires ready { Ready cells.now (word_at bytes.old gap.left gap.right) }
    ensures length { length bytes.new ≡ length bytes.old }
    ensures turn { TurnMeans cells.now (word_at bytes.old gap.left gap.right) remaining bytes.new result }
{
    match seek(bytes, gap) {
        Ok(site) => step(cells, bytes, site, remaining),
        Err(end) => Turn::Final(end),
    }
}
