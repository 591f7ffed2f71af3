// Numbers of 0 to 99 in decimal.
ghost use Rattle.std.specs.Prelude.{◌≡◌, drop};
ghost use Rattle.model.specs.Notation.{read_number};
ghost use Rattle.importing.specs.Reading.{number_stated};

use crate::bytes::digit_stands;

// A number, and where the text goes on.
#[derive(Clone, Copy)]
pub struct Number {
    pub value: u8,
    pub next: usize,
}

pub fn read_number(text: &[u8], at: usize) -> Option<Number>
    ensures { number_stated text.now result ≡ read_number (drop at text.now) }
{
    if !digit_stands(text, at) {
        return None;
    }
    let first = text[at] - b'0';
    let next = at + 1;
    if first == 0 || !digit_stands(text, next) {
        return Some(Number { value: first, next });
    }
    Some(Number {
        value: 10 * first + (text[next] - b'0'),
        next: next + 1,
    })
}
