// The 44 numbers of a reading.
ghost use Rattle.std.specs.Prelude.{◌≡◌, ◌∷◌, ◌++◌};
ghost use Rattle.read_rules.specs.File.{walked};
ghost use Rattle.export_rules.specs.Numbers.{of_image, of_colour, last_numbers, numbers, refusal_number};

use box_refusal::Refusal;
use read_record::Jp2;
use read_rules::{FileEnd, Reading};

// How many numbers a reading has.
pub const READING_LENGTH: usize = 44;

// The kinds of a reading: numbers, as C has them.
const CODESTREAM: u64 = 0;

const ENDED: u64 = 1;

pub const REFUSED: u64 = 2;

// The kind, what goes with it, and the numbers of the record.
fn with_record(kind: u64, value: u64, place: u64, j: Jp2) -> [u64; READING_LENGTH]
    ensures { result ≡ kind ∷ value ∷ place ∷ (of_image j.image ++ of_colour j.colour ++ last_numbers j) }
{
    let i = j.image;
    let c = j.colour;
    let lab = c.lab.numbers;
    let l = j.lists;
    let s = j.status;
    [
        kind,
        value,
        place,
        u64::from(i.h),
        u64::from(i.w),
        u64::from(i.numcomps),
        u64::from(i.bpc),
        u64::from(i.c),
        u64::from(i.unkc),
        u64::from(i.ipr),
        u64::from(c.meth),
        u64::from(c.precedence),
        u64::from(c.approx),
        u64::from(c.enumcs),
        u64::from(lab[0]),
        u64::from(lab[1]),
        u64::from(lab[2]),
        u64::from(lab[3]),
        u64::from(lab[4]),
        u64::from(lab[5]),
        u64::from(lab[6]),
        u64::from(lab[7]),
        u64::from(lab[8]),
        u64::from(c.lab.count),
        u64::from(c.held),
        u64::from(j.filetype.brand),
        u64::from(j.filetype.minversion),
        l.cl.place as u64,
        l.cl.count as u64,
        l.bpcc.place as u64,
        l.bpcc.count as u64,
        l.icc.place as u64,
        l.icc.count as u64,
        l.pclr.place as u64,
        u64::from(l.pclr.entries),
        u64::from(l.pclr.columns),
        l.cmap.place as u64,
        l.cmap.count as u64,
        l.cdef.place as u64,
        l.cdef.count as u64,
        u64::from(s.state),
        u64::from(s.imgstate),
        u64::from(s.hasjp2h),
        u64::from(s.hasihdr),
    ]
}

// All numbers. A refusal has the record before any box.
pub fn of_reading(r: Result<Reading, Refusal<u32>>) -> [u64; READING_LENGTH]
    ensures { result ≡ numbers (walked r) }
{
    match r {
        Ok(r) => match r.end {
            FileEnd::Codestream(offset) => with_record(CODESTREAM, u64::from(offset), 0, r.jp2),
            FileEnd::Ended => with_record(ENDED, 0, 0, r.jp2),
        },
        Err(e) => with_record(
            REFUSED,
            u64::from(e.cause.number()),
            u64::from(e.place),
            read_record::opj_jp2_create(),
        ),
    }
}

// The number of a refusal, 0 for any other answer.
pub fn refusal_number(r: Result<Reading, Refusal<u32>>) -> u32
    ensures { result ≡ refusal_number (walked r) }
{
    match r {
        Ok(_) => 0,
        Err(e) => e.cause.number(),
    }
}
