// The bytes of a bed.
ghost use Rattle.std.specs.Prelude.{◌≡◌, ◌*◌, ◌≤◌, length};
ghost use Rattle.model.specs.Enumeration.{concat_map};
ghost use Rattle.model.specs.Areas.{begins};
ghost use Rattle.model.specs.Bed.{total_bytes};
ghost use Rattle.bed.specs.Shown.{BedWritten};

use crate::moves::Bed;
use areas::bytes::copy_bytes;

// The totals, two bytes each in two's complement, the high one first, at the beginning of an area.
pub fn write_totals(totals: &[i16], area: &mut [u8])
    requires { 2 * length totals.now ≤ length area.old }
    ensures length { length area.new ≡ length area.old }
    ensures totals { area.new ≡ begins (concat_map total_bytes totals.now) area.old }
{
    for (k, total) in totals.iter().enumerate() {
        let [high, low] = total.cast_unsigned().to_be_bytes();
        area[2 * k] = high;
        area[2 * k + 1] = low;
    }
}

// The bobbins, a byte each, then the totals, at the beginning of an area.
pub fn write_bed(bed: &Bed, area: &mut [u8])
    requires { (1 ≤ bed.now.places) × (bed.now.places ≤ 17) × (bed.now.places * bed.now.places ≤ length area.old) }
    ensures length { length area.new ≡ length area.old }
    ensures bed { BedWritten bed.now area.old area.new }
{
    let places = bed.places;
    let pairs = places * (places - 1) / 2;
    copy_bytes(&bed.bobbins[..places], area);
    write_totals(&bed.totals[..pairs], &mut area[places..]);
}
