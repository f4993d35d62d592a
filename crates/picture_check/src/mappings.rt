// The checks of mappings: each names a component and a column that exist (number 27), and its component has samples (number 28). And whether they are to be corrected.
ghost use Rattle.std.specs.Prelude.{◌+◌, ◌*◌, ◌≤◌, ◌≡◌, length};
ghost use Rattle.box_number.specs.Table.{◌≠?◌, ◌and◌, holds};
ghost use Rattle.picture_rules.specs.Channels.{corrected};
ghost use Rattle.picture_rules.specs.Check.{mismapped, dataless};
ghost use Rattle.box_number.specs.Lowest.{found};
ghost use Rattle.picture_check.specs.Private.Parts.{ListInside};

use crate::lent::Lent;
use read_channels::MAPPING_BYTES;
use read_record::Span;

// The types of a mapping: direct use of the component, or through a column of the palette.
const DIRECT: u8 = 0;

const PALETTE: u8 = 1;

// A file and a list in it stay two parameters here too, as in definitions.rt, and that the list lies in the file is one premise of each.

// Whether mapping c has no component, of n, or is neither a direct one nor one to its own column.
fn is_mismapped(f: &[u8], l: Span, n: u32, c: usize) -> bool
    requires { l.place + 4 * (c + 1) ≤ length f.now }
    ensures { result ≡ holds (mismapped f.now l n c) }
{
    let at = l.place + MAPPING_BYTES * c;
    let component = u32::from(box_number::read_u16(f, at));
    let pcol = usize::from(box_number::read_u8(f, at + 3));
    n <= component
        || match box_number::read_u8(f, at + 2) {
            DIRECT => pcol != 0,
            PALETTE => pcol != c,
            _ => true,
        }
}

// The first mapping that fails, with n components.
pub fn first_mismapped(f: &[u8], l: Span, n: u32) -> Option<usize>
    requires { ListInside 4 f.now l }
    ensures { result ≡ found (mismapped f.now l n) l.count }
{
    (0..l.count).find(|&c| is_mismapped(f, l, n, c))
}

// Whether the mappings are to be corrected, with n components: with one, a direct mapping from 1 up corrects all.
pub fn is_corrected(f: &[u8], l: Span, n: u32) -> bool
    requires { ListInside 4 f.now l }
    ensures { result ≡ holds (l.count ≠? 0 and corrected f.now l n) }
{
    n == 1
        && (1..l.count).any(|c| box_number::read_u8(f, l.place + MAPPING_BYTES * c + 2) == DIRECT)
}

// Whether the component of mapping c has no samples.
fn is_dataless(f: &[u8], l: Span, lent: &Lent<'_>, c: usize) -> bool
    requires { l.place + 4 * (c + 1) ≤ length f.now }
    ensures { result ≡ holds (dataless f.now l lent.now c) }
{
    let component = u32::from(box_number::read_u16(f, l.place + MAPPING_BYTES * c));
    lent.component(component, read_record::DATA) == read_record::NO_DATA
}

// The first mapping whose component has no samples.
pub fn first_dataless(f: &[u8], l: Span, lent: &Lent<'_>) -> Option<usize>
    requires { ListInside 4 f.now l }
    ensures { result ≡ found (dataless f.now l lent.now) l.count }
{
    (0..l.count).find(|&c| is_dataless(f, l, lent, c))
}
