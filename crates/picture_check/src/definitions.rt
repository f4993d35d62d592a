// The checks of channel definitions: each names a channel and a colour that exist (number 25), and each channel is defined, in edition 1 but for channel 0 (number 26).
ghost use Rattle.std.specs.Prelude.{ℕ, ◌+◌, ◌*◌, ◌≤◌, ◌<◌, ◌≡◌, Bool, false, length, get_or};
ghost use Rattle.box_number.specs.Table.{holds};
ghost use Rattle.picture_rules.specs.Image.{most_components};
ghost use Rattle.picture_rules.specs.Edition.{least_counted};
ghost use Rattle.picture_rules.specs.Check.{misnamed, undefined};
ghost use Rattle.box_number.specs.Lowest.{found};
ghost use Rattle.picture_check.specs.Private.Parts.{ListInside, seen_after, unmarked, Markable, Named};

use read_channels::{DEFINITION_BYTES, UNASSOCIATED};
use read_record::Span;

// An association with the whole image.
const WHOLE_IMAGE: u16 = 0;

// The places in a list of marks: for few channels, and for the most that a picture can have.
const FEW_CHANNELS: usize = 64;

const MOST_CHANNELS: usize = 16384;

// A file and a list in it stay two parameters here: the definitions of the clauses take both, as in `misnamed f.now l k j`, and a struct of them would be taken apart in each clause.

// Whether definition j names a channel, or a colour, that is not below k.
fn is_misnamed(f: &[u8], l: Span, k: u32, j: usize) -> bool
    requires { l.place + 6 * (j + 1) ≤ length f.now }
    ensures { result ≡ holds (misnamed f.now l k j) }
{
    let at = l.place + DEFINITION_BYTES * j;
    let channel = u32::from(box_number::read_u16(f, at));
    let asoc = box_number::read_u16(f, at + 4);
    k <= channel || asoc != WHOLE_IMAGE && asoc != UNASSOCIATED && k < u32::from(asoc)
}

// The first definition that names a channel, or a colour, that is not below k.
pub fn first_misnamed(f: &[u8], l: Span, k: u32) -> Option<usize>
    requires { ListInside 6 f.now l }
    ensures { result ≡ found (misnamed f.now l k) l.count }
{
    (0..l.count).find(|&j| is_misnamed(f, l, k, j))
}

// Marks the channel that each definition names.
fn mark_defined(f: &[u8], l: Span, seen: &mut [bool])
    requires { Markable f.now l seen.old }
    ensures { (c : ℕ) → c < length seen.old → get_or seen.new c false ≡ seen_after f.now l l.count c }
{
    for j in 0..l.count {
        let channel = box_number::read_u16(f, l.place + DEFINITION_BYTES * j);
        seen[usize::from(channel)] = true;
    }
}

// The least channel that number 26 counts: in edition 1 channel 0 may go undefined. The edition is a number here too, as in `Settings`.
#[tactic(auto, unfolding(picture_rules::specs::Edition::least_counted, box_number::specs::Table::table))]
fn least_counted(edition2: u32) -> u32
    ensures { result ≡ least_counted edition2 }
{
    if edition2 == 0 { 1 } else { 0 }
}

// The first channel from the least up, of k, that has no mark.
fn first_unmarked(seen: &[bool], least: u32, k: u32) -> Option<u32>
    requires { k ≤ length seen.now }
    ensures { result ≡ found (unmarked least seen.now) k }
{
    (least..k).find(|&c| !seen[c as usize])
}

// The first channel that the edition counts, of k, that has no definition, by a list of N marks.
fn first_undefined_among<const N: usize>(f: &[u8], l: Span, edition2: u32, k: u32) -> Option<u32>
    requires { Named f.now l k × (k ≤ N) × (N ≤ most_components) × (0 < l.count) }
    ensures { result ≡ found (undefined edition2 f.now l) k }
{
    let mut seen = [false; N];
    mark_defined(f, l, &mut seen);
    first_unmarked(&seen, least_counted(edition2), k)
}

// The same, of no channel where there are no definitions. To clear the longer list of marks takes more time than all else in a picture of few channels.
pub fn first_undefined(f: &[u8], l: Span, edition2: u32, k: u32) -> Option<u32>
    requires { Named f.now l k }
    ensures { result ≡ found (undefined edition2 f.now l) k }
{
    if l.count == 0 {
        None
    } else if k as usize <= FEW_CHANNELS {
        first_undefined_among::<FEW_CHANNELS>(f, l, edition2, k)
    } else {
        first_undefined_among::<MOST_CHANNELS>(f, l, edition2, k)
    }
}
