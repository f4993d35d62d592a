// The palette box (I.5.3.4).
// Every reader of a box has this signature: the box's content, where the box and its content start, and the record before it.
#![tactic(auto)]

ghost use Rattle.std.specs.Prelude.{◌≡◌};
ghost use Rattle.read_record.specs.Answer.{told};
ghost use Rattle.read_palette.specs.Pclr.{entry_bytes, row_bytes, pclr};

use box_refusal::{Cause, Refusal};
use read_record::{At, Jp2, Palette};

// NE and NPC, before the depths of the columns.
const COUNTS_BYTES: usize = 3;

const MOST_ENTRIES: u16 = 1024;

// The most bytes of an entry.
const MOST_ENTRY_BYTES: usize = 4;

// The bytes of an entry in a column whose depth and sign are b.
pub fn entry_bytes(b: u8) -> usize
    ensures { result ≡ entry_bytes b }
{
    MOST_ENTRY_BYTES.min((b as usize % 128 + 8) / 8)
}

// The bytes that the first n columns of a row take; the columns' depths start at a place of s.
pub fn row_bytes(s: &[u8], at: u32, n: u8) -> usize
    ensures { result ≡ row_bytes s.now at n }
{
    let first = at as usize;
    (0..n as usize)
        .map(|i| entry_bytes(box_number::read_u8(s, first + i)))
        .sum()
}

pub fn opj_jp2_read_pclr(c: &[u8], at: At, j: Jp2) -> Result<Jp2, Refusal<u32>>
    ensures { told result ≡ pclr at.place at.start c.now j }
{
    if j.lists.pclr.columns != 0 {
        return Err(at.refused(Cause::SecondList));
    }
    if c.len() < COUNTS_BYTES {
        return Err(at.refused(Cause::PaletteTooShort));
    }
    let entries = box_number::read_u16(c, 0);
    let columns = box_number::read_u8(c, 2);
    if entries == 0 {
        return Err(at.refused(Cause::PaletteSize));
    }
    if MOST_ENTRIES < entries {
        return Err(at.refused(Cause::PaletteSize));
    }
    if columns == 0 {
        return Err(at.refused(Cause::PaletteSize));
    }
    let row = row_bytes(c, 3, columns);
    if c.len() < COUNTS_BYTES + columns as usize + entries as usize * row {
        return Err(at.refused(Cause::PaletteTooShort));
    }
    let mut k = j;
    k.lists.pclr = Palette {
        place: at.start as usize + COUNTS_BYTES,
        entries: entries as u32,
        columns: columns as u32,
    };
    Ok(k)
}
