// The bounds checks for finishing (number 29): the components and their samples in their lists, and the lists of a record in the file.
ghost use Rattle.std.specs.Prelude.{◌≡◌, length};
ghost use Rattle.box_number.specs.Table.{◌or◌, holds};
ghost use Rattle.picture_rules.specs.Finish.{plane_outside, outside_lists, palette_outside, mappings_outside, outside_file};

use crate::lent::Lent;
use read_channels::MAPPING_BYTES;
use read_record::{Jp2, MOST_COMPONENTS, Palette, Span};

const MOST_SAMPLES: usize = 4294967294;

// The most entries and columns that the reader of pclr gives.
const MOST_ENTRIES: usize = 1024;

const MOST_COLUMNS: usize = 255;

// Whether the plane of component c has samples that do not lie in the list.
#[tactic(auto, unfolding(picture_rules::specs::Image::size, box_number::specs::Table::table))]
fn plane_outside(lent: &Lent<'_>, c: u32) -> bool
    ensures { result ≡ holds (plane_outside lent.now (length lent.now.samples) c) }
{
    let first = lent.component(c, read_record::DATA);
    first != read_record::NO_DATA
        && box_number::lies_outside(lent.samples.len(), first as usize, lent.size(c) as usize)
}

// Whether there are too many components or samples, or a record or plane lies outside its list.
fn outside_lists(lent: &Lent<'_>) -> bool
    ensures { result ≡ holds (outside_lists lent.now) }
{
    MOST_COMPONENTS < lent.count
        || lent.comps.len() < read_record::COMPONENT_NUMBERS * lent.count as usize
        || MOST_SAMPLES < lent.samples.len()
        || (0..lent.count).any(|c| plane_outside(lent, c))
}

// Whether a palette is one that no reader gives, or does not lie in f.
fn palette_outside(f: &[u8], p: Palette) -> bool
    ensures { result ≡ holds (palette_outside f.now p) }
{
    let entries = p.entries as usize;
    let columns = p.columns as usize;
    columns != 0
        && (entries == 0
            || MOST_ENTRIES < entries
            || MOST_COLUMNS < columns
            || {
                let s = box_number::part(f, p.place, f.len());
                let row = read_palette::row_bytes(s, 0, columns as u8);
                box_number::lies_outside(f.len(), p.place, columns + entries * row)
            })
}

// Whether a mapping list is one that no reader gives for a palette of this many columns, or does not lie in f.
fn mappings_outside(f: &[u8], l: Span, columns: u32) -> bool
    ensures { result ≡ holds (mappings_outside f.now l columns) }
{
    l.count != 0
        && (l.count != columns as usize
            || box_number::lies_outside(f.len(), l.place, MAPPING_BYTES * l.count))
}

// Whether the record has a palette, mappings or definitions that no reader gives, or that do not lie in f.
fn outside_file(f: &[u8], m: Jp2) -> bool
    ensures { result ≡ holds (outside_file f.now m) }
{
    let lists = m.lists;
    palette_outside(f, lists.pclr)
        || mappings_outside(f, lists.cmap, lists.pclr.columns)
        || read_channels::definitions_outside(f, lists.cdef)
}

// Number 29: whether anything lies outside its list or outside the file.
pub fn outside(f: &[u8], m: Jp2, lent: &Lent<'_>) -> bool
    ensures { result ≡ holds (outside_lists lent.now or outside_file f.now m) }
{
    outside_lists(lent) || outside_file(f, m)
}
