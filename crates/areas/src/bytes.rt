ghost use Rattle.std.specs.Prelude.{◌≡◌, ◌+◌, ◌≤◌, length, take, drop, replicate};
ghost use Rattle.model.specs.Areas.{written, begins};

// Leaves an area all zero.
pub fn wipe(area: &mut [u8])
    ensures { area.new ≡ replicate (length area.old) 0 }
{
    area.fill(0);
}

// Copies the bytes to the beginning of an area.
// Kept (3, 4): (a) the archive wants memcpy and memset alone (specification 1.2), and copy_from_slice wants memmove.
pub fn copy_bytes(from: &[u8], area: &mut [u8])
    requires { length from.now ≤ length area.old }
    ensures length { length area.new ≡ length area.old }
    ensures bytes { area.new ≡ begins from.now area.old }
{
    for (i, byte) in from.iter().enumerate() {
        area[i] = *byte;
    }
}

// Copies the bytes from one place of an area to a place behind them.
// Kept (3, 4): (a) the archive wants memcpy and memset alone (specification 1.2), and copy_within wants memmove.
pub fn copy_on(area: &mut [u8], from: usize, count: usize, to: usize)
    requires { (from + count ≤ to) × (to + count ≤ length area.old) }
    ensures length { length area.new ≡ length area.old }
    ensures bytes { area.new ≡ written area.old to (take count (drop from area.old)) }
{
    for i in 0..count {
        area[to + i] = area[from + i];
    }
}
