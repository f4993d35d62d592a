// The order of a picture's planes (`opj_jp2_apply_cdef` of jp2.rs), over one lent list of thirteen numbers a record; `lent` has the same over a lent list of records.
#![tactic(auto)]

ghost use Rattle.std.specs.Prelude.{◌≡◌};
ghost use Rattle.box_refusal.specs.Told.{told};
ghost use Rattle.picture_order.specs.Flat.{answered, afterwards};

use box_refusal::Refusal;
use read_record::Span;

pub mod lent;
mod positions;
mod records;
mod run;

// The definitions of a file as a reorder takes them: where they are in it, and by which edition of the camera rules they are run. 0 is edition 1, the crate's behaviour, and any other number edition 2, as in the C interface.
#[derive(Clone, Copy)]
pub struct Definitions {
    pub cdef: Span,
    pub edition2: u32,
}

// Puts the first n records of recs into the order of the definitions d of the file f.
pub fn opj_jp2_apply_cdef(
    f: &[u8],
    d: Definitions,
    recs: &mut [u32],
    n: u32,
) -> Result<(), Refusal<u32>>
    ensures { (told result ≡ answered f.now d.cdef n recs.old) × (recs.new ≡ afterwards d.edition2 f.now d.cdef n recs.old) }
{
    run::apply(f, d, recs, n)
}
