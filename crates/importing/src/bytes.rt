// What stands at a place of the text.
ghost use Rattle.std.specs.Prelude.{◌≡◌, drop};
ghost use Rattle.importing.specs.Reading.{stands_first, digit_first};

// Whether the byte stands at a place of the text.
pub fn stands(text: &[u8], at: usize, byte: u8) -> bool
    ensures { result ≡ stands_first byte (drop at text.now) }
{
    text.get(at) == Some(&byte)
}

// Whether a digit stands at a place of the text.
pub fn digit_stands(text: &[u8], at: usize) -> bool
    ensures { result ≡ digit_first (drop at text.now) }
{
    text.get(at).is_some_and(u8::is_ascii_digit)
}
