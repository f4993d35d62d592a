// The component mapping box (I.5.3.5) and the channel definition box (I.5.3.6): which channels a picture has, and what they are.
// Every reader of a box has this signature: the box's content, where the box and its content start, and the record before it.
#![tactic(auto)]

ghost use Rattle.std.specs.Prelude.{◌≡◌};
ghost use Rattle.box_number.specs.Table.{holds};
ghost use Rattle.read_record.specs.Answer.{told};
ghost use Rattle.read_channels.specs.Cmap.{cmap};
ghost use Rattle.read_channels.specs.Cdef.{cdef};
ghost use Rattle.read_channels.specs.Definitions.{definitions_outside};

use box_refusal::{Cause, Refusal};
use read_record::{At, Jp2, Span};

// CMP, MTYP and PCOL of a mapping take two bytes, one and one.
pub const MAPPING_BYTES: usize = 4;

// Cn, Typ and Asoc of a definition take two bytes each, and so does the number of definitions.
pub const DEFINITION_BYTES: usize = 6;

// Asoc of a channel that belongs to no colour.
pub const UNASSOCIATED: u16 = 65535;

const MOST_DEFINITIONS: usize = 65535;

pub fn opj_jp2_read_cmap(c: &[u8], at: At, j: Jp2) -> Result<Jp2, Refusal<u32>>
    ensures { told result ≡ cmap at.place at.start c.now j }
{
    let columns = j.lists.pclr.columns as usize;
    if columns == 0 {
        return Err(at.refused(Cause::MappingWithoutPalette));
    }
    if j.lists.cmap.count != 0 {
        return Err(at.refused(Cause::SecondList));
    }
    if c.len() < MAPPING_BYTES * columns {
        return Err(at.refused(Cause::MappingTooShort));
    }
    let mut k = j;
    k.lists.cmap = Span {
        place: at.start as usize,
        count: columns,
    };
    Ok(k)
}

pub fn opj_jp2_read_cdef(c: &[u8], at: At, j: Jp2) -> Result<Jp2, Refusal<u32>>
    ensures { told result ≡ cdef at.place at.start c.now j }
{
    if j.lists.cdef.count != 0 {
        return Err(at.refused(Cause::SecondList));
    }
    if c.len() < 2 {
        return Err(at.refused(Cause::DefinitionTooShort));
    }
    let n = box_number::read_u16(c, 0) as usize;
    if n == 0 {
        return Err(at.refused(Cause::NoDefinitions));
    }
    if c.len() < 2 + DEFINITION_BYTES * n {
        return Err(at.refused(Cause::DefinitionTooShort));
    }
    let mut k = j;
    k.lists.cdef = Span {
        place: at.start as usize + 2,
        count: n,
    };
    Ok(k)
}

// Whether a definition list is one that the reader of cdef never gives, or does not lie in the file f (number 29). A list of no definitions is none, wherever its place is.
pub fn definitions_outside(f: &[u8], l: Span) -> bool
    ensures { result ≡ holds (definitions_outside f.now l) }
{
    l.count != 0
        && (MOST_DEFINITIONS < l.count
            || box_number::lies_outside(f.len(), l.place, DEFINITION_BYTES * l.count))
}
