// Little-endian numbers in bytes, as plans and records have them: read at a place, and written at a place of a buffer that keeps its rest.
#![tactic(auto)]

ghost use Rattle.std.specs.Prelude.{◌≡◌, ◌+◌, ◌^◌, ◌≤◌, ◌<◌, length, get_or};
ghost use Rattle.endian.specs.Numbers.{number_at, bytes_of};
ghost use Rattle.slices.specs.Copying.{pasted};

// The byte at a place; 0 past the end.
#[inline(always)]
pub fn byte_at(bytes: &[u8], i: usize) -> usize
    ensures { (result ≡ get_or bytes.now i 0) × (result < 256) }
{
    bytes.get(i).copied().unwrap_or(0) as usize
}

// The number of W bytes.
#[inline(always)]
pub fn read<const W: usize>(bytes: &[u8], at: usize) -> u64
    requires { (W ≤ 8) × (at + W ≤ length bytes.now) }
    ensures { (result ≡ number_at bytes.now at W) × (result < 256 ^ W) }
{
    let mut number = [0; 8];
    number[..W].copy_from_slice(&bytes[at..at + W]);
    u64::from_le_bytes(number)
}

// The lowest W bytes of a number.
#[inline(always)]
pub fn write<const W: usize>(bytes: &mut [u8], at: usize, x: u32)
    requires { (W ≤ 4) × (at + W ≤ length bytes.old) }
    ensures { bytes.new ≡ pasted bytes.old at (bytes_of W x) }
{
    bytes[at..at + W].copy_from_slice(&x.to_le_bytes()[..W]);
}
