// The boxes that begin a file: signature (I.5.1) and file type (I.5.2).
// Every reader of a box has this signature: the box's content, where the box and its content start, and the record before it.
#![tactic(auto)]

ghost use Rattle.std.specs.Prelude.{◌≡◌};
ghost use Rattle.read_record.specs.Answer.{told};
ghost use Rattle.read_signature.specs.Signature.{signature};
ghost use Rattle.read_signature.specs.FileType.{file_type};

use box_refusal::{Cause, Refusal};
use read_record::{At, Bit, FileType, Jp2, Span};

// The content of a signature box.
const SIGNATURE: u32 = 0x0d0a870a;

// jp2_state after the signature, and after the file type too.
const SIGNATURE_READ: u32 = Bit::Signature as u32;

const FILE_TYPE_READ: u32 = SIGNATURE_READ + Bit::FileType as u32;

// Brand and minor version, before the compatibility list; an entry of the list.
const BRAND_BYTES: usize = 8;

const ENTRY_BYTES: usize = 4;

pub fn opj_jp2_read_jp(c: &[u8], at: At, j: Jp2) -> Result<Jp2, Refusal<u32>>
    ensures { told result ≡ signature at.place at.start c.now j }
{
    if j.status.state != 0 {
        return Err(at.refused(Cause::Signature));
    }
    if c.len() != 4 {
        return Err(at.refused(Cause::Signature));
    }
    if box_number::read_u32(c, 0) != SIGNATURE {
        return Err(at.refused(Cause::Signature));
    }
    let mut k = j;
    k.status.state = SIGNATURE_READ;
    Ok(k)
}

pub fn opj_jp2_read_ftyp(c: &[u8], at: At, j: Jp2) -> Result<Jp2, Refusal<u32>>
    ensures { told result ≡ file_type at.place at.start c.now j }
{
    let n = c.len();
    if j.status.state != SIGNATURE_READ {
        return Err(at.refused(Cause::FileType));
    }
    if n < BRAND_BYTES {
        return Err(at.refused(Cause::FileType));
    }
    if n % ENTRY_BYTES != 0 {
        return Err(at.refused(Cause::FileType));
    }
    let mut k = j;
    k.filetype = FileType {
        brand: box_number::read_u32(c, 0),
        minversion: box_number::read_u32(c, 4),
    };
    k.lists.cl = Span {
        place: at.start as usize + BRAND_BYTES,
        count: (n - BRAND_BYTES) / ENTRY_BYTES,
    };
    k.status.state = FILE_TYPE_READ;
    Ok(k)
}
