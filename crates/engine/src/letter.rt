ghost use Rattle.std.specs.Prelude.{◌≡◌};
ghost use Rattle.model.specs.Word.{letter, flip};

use model::plain::BACK;

// The letter with the opposite sign, without a branch: a back letter's byte is 128 more, and 128 more again is what it was, modulo 256.
pub fn turned(x: u8) -> u8
    ensures { letter result ≡ flip (letter x) }
{
    x.wrapping_add(BACK)
}
