// A run of the definitions of a file over a list of records.
ghost use Rattle.std.specs.Prelude.{◌≡◌, ◌+◌, ◌*◌, ◌≤◌, length};
ghost use Rattle.box_refusal.specs.Told.{told};
ghost use Rattle.read_channels.specs.Definitions.{definition};
ghost use Rattle.picture_order.specs.Flat.{reorder_outside, reordered, answered, afterwards};
ghost use Rattle.box_number.specs.Table.{holds};
ghost use Rattle.picture_order.specs.Private.Steps.{def_of};

use crate::Definitions;
use crate::positions::{Definition, Positions};
use crate::records::Element;
use box_refusal::{Cause, Refusal};
use read_channels::DEFINITION_BYTES;
use read_record::Span;

// The places in the lists of a run: for few channels, for some, and for the most that a picture can have. To clear the longest takes more time than all else in a picture of few channels.
const FEW: usize = 64;

const SOME: usize = 1024;

const MOST: usize = 16384;

// Reads definition k of a list.
fn read_definition(f: &[u8], list: Span, k: usize) -> Definition
    requires { list.place + 6 * k + 6 ≤ length f.now }
    ensures { def_of result ≡ definition f.now list k }
{
    let at = list.place + DEFINITION_BYTES * k;
    Definition {
        channel: usize::from(box_number::read_u16(f, at)),
        typ: box_number::read_u16(f, at + 2),
        asoc: usize::from(box_number::read_u16(f, at + 4)),
    }
}

// Applies the definitions, in their order, to n records, with lists of N places. Its lists would take stack from every picture if it became a part of its caller (docs/DECISIONS.md, 41).
#[inline(never)]
fn reorder_within<const N: usize, E: Element>(f: &[u8], d: Definitions, recs: &mut [E], n: usize)
    requires places { N ≤ 16384 }
    requires room { n ≤ N }
    requires records { 13 * n ≤ length (E.numbers recs.old) }
    requires in_file { d.cdef.place + 6 * d.cdef.count ≤ length f.now }
    ensures { E.numbers recs.new ≡ reordered d.edition2 f.now d.cdef n (E.numbers recs.old) }
{
    let mut positions = Positions::<N>::empty();
    positions.start(n);
    for k in 0..d.cdef.count {
        let definition = read_definition(f, d.cdef, k);
        let Some(ask) = positions.decide(d.edition2, definition) else {
            continue;
        };
        E::exchange(recs, ask.i, ask.j);
        E::mark(recs, ask.i, ask.mark);
    }
}

// Number 29: too many records, records outside their list, or definitions outside the file.
fn reorder_outside<E: Element>(f: &[u8], cdef: Span, recs: &[E], n: u32) -> bool
    ensures { result ≡ holds (reorder_outside f.now cdef n (E.numbers recs.now)) }
{
    let n = n as usize;
    MOST < n || E::count(recs) < n || read_channels::definitions_outside(f, cdef)
}

// Puts the first n records of recs into the order of the definitions d of the file f.
pub(crate) fn apply<E: Element>(
    f: &[u8],
    d: Definitions,
    recs: &mut [E],
    n: u32,
) -> Result<(), Refusal<u32>>
    ensures { (told result ≡ answered f.now d.cdef n (E.numbers recs.old)) × (E.numbers recs.new ≡ afterwards d.edition2 f.now d.cdef n (E.numbers recs.old)) }
{
    if reorder_outside(f, d.cdef, recs, n) {
        return Err(Refusal {
            cause: Cause::OutsideItsList,
            place: 0,
        });
    }
    let n = n as usize;
    if n == 0 || d.cdef.count == 0 {
        return Ok(());
    }
    if n <= FEW {
        reorder_within::<FEW, E>(f, d, recs, n);
    } else if n <= SOME {
        reorder_within::<SOME, E>(f, d, recs, n);
    } else {
        reorder_within::<MOST, E>(f, d, recs, n);
    }
    Ok(())
}
