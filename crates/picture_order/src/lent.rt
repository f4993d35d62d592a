// The order of a picture's planes over a lent list of component records (`opj_jp2_apply_cdef` of jp2.rs).
ghost use Rattle.std.specs.Prelude.{◌≡◌};
ghost use Rattle.box_refusal.specs.Told.{told};
ghost use Rattle.picture_order.specs.Flat.{answered, afterwards};
ghost use Rattle.picture_order.specs.Comps.{numbered};

use crate::Definitions;
use crate::records::Element;
use box_refusal::Refusal;

// A component of a picture; `data` is the index of its first sample.
#[derive(Clone, Copy, Debug, PartialEq, Eq)]
pub struct Comp {
    pub dx: u32,
    pub dy: u32,
    pub w: u32,
    pub h: u32,
    pub x0: u32,
    pub y0: u32,
    pub prec: u32,
    pub bpp: u32,
    pub sgnd: u32,
    pub resno_decoded: u32,
    pub factor: u32,
    pub data: u32,
    pub alpha: u32,
}

impl Element for Comp {
    ghost numbers = { numbered };

    fn count(list: &[Comp]) -> usize {
        list.len()
    }

    fn exchange(list: &mut [Comp], p: usize, q: usize) {
        list.swap(p, q);
    }

    fn mark(list: &mut [Comp], p: usize, t: u16) {
        list[p].alpha = u32::from(t);
    }
}

// Puts the first n records of cs into the order of the definitions d of the file f. The answer, and the records' numbers afterwards, are those of the list of numbers.
pub fn opj_jp2_apply_cdef(
    f: &[u8],
    d: Definitions,
    cs: &mut [Comp],
    n: u32,
) -> Result<(), Refusal<u32>>
    ensures { (told result ≡ answered f.now d.cdef n (numbered cs.old)) × (numbered cs.new ≡ afterwards d.edition2 f.now d.cdef n (numbered cs.old)) }
{
    crate::run::apply(f, d, cs, n)
}
