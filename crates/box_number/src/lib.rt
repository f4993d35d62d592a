// Numbers of 1 to 4 bytes, big-endian (cio.rs), and parts of a slice. Nothing here can fail: a byte past the end counts as 0, and a number that
// has no room is not written.
#![tactic(auto)]

ghost use Rattle.std.specs.Prelude.{◌+◌, ◌≡◌};
ghost use Rattle.box_number.specs.Table.{holds};
ghost use Rattle.box_number.specs.Number.{number, part, least, fits, written, lies_outside};

// The bytes of s from start up to end; those past the end of s are not there.
pub fn part(s: &[u8], start: usize, end: usize) -> &[u8]
    ensures { result.now ≡ part s.now start end }
{
    if end <= start || s.len() <= start {
        return &[];
    }
    &s[start..end.min(s.len())]
}

// Whether n elements from a place on do not lie in a list of the given length. Place plus n is not computed, since the sum may be too large for its type.
pub fn lies_outside(len: usize, place: usize, n: usize) -> bool
    ensures { result ≡ holds (lies_outside len place n) }
{
    len < n || len - n < place
}

pub fn read_u8(s: &[u8], at: usize) -> u8
    ensures { result ≡ number s.now at 1 }
{
    s.get(at).copied().unwrap_or(0)
}

// By the weights of the bytes, as the definition has it; from_be_bytes has another definition, and would need a law more.
pub fn read_u16(s: &[u8], at: usize) -> u16
    ensures { result ≡ number s.now at 2 }
{
    if s.len() <= at {
        return 0;
    }
    read_u8(s, at) as u16 * 256 + read_u8(s, at + 1) as u16
}

pub fn read_u32(s: &[u8], at: usize) -> u32
    ensures { result ≡ number s.now at 4 }
{
    if s.len() <= at {
        return 0;
    }
    read_u8(s, at) as u32 * 16777216
        + read_u8(s, at + 1) as u32 * 65536
        + read_u8(s, at + 2) as u32 * 256
        + read_u8(s, at + 3) as u32
}

// The number in nb bytes at a place; of more than 4 bytes the first 4 count.
pub fn opj_read_bytes(s: &[u8], at: usize, nb: usize) -> u32
    ensures { result ≡ number s.now at (least nb 4) }
{
    if s.len() <= at {
        return 0;
    }
    match nb {
        0 => 0,
        1 => read_u8(s, at) as u32,
        2 => read_u16(s, at) as u32,
        3 => read_u16(s, at) as u32 * 256 + read_u8(s, at + 2) as u32,
        _ => read_u32(s, at),
    }
}

// The low nb bytes of value, at most 4, to a place of d; whether they had room there. The list and the place are two parameters and no struct, since a clause says what d is before and after as d.old and d.new; write_boxes has a struct for both.
pub fn opj_write_bytes(d: &mut [u8], at: usize, value: u32, nb: usize) -> bool
    ensures { (result ≡ fits d.old at nb) × (d.new ≡ written d.old at nb value) }
{
    if 4 < nb || lies_outside(d.len(), at, nb) {
        return false;
    }
    // a loop, since copy_from_slice of to_be_bytes has digits where the definition divides: tried, and not proved
    let mut v = value;
    for k in (0..nb).rev() {
        d[at + k] = (v % 256) as u8;
        v = v / 256;
    }
    true
}
