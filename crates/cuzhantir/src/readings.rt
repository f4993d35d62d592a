// Finishing a picture whose file was read before: the caller gives the reading as numbers and is not trusted.
ghost use Rattle.std.specs.Prelude.{◌≡◌};
ghost use Rattle.box_number.specs.Table.{holds};
ghost use Rattle.box_refusal.specs.Told.{told};
ghost use Rattle.picture_rules.specs.Whole.{handed};
ghost use Rattle.export_rules.specs.FinishReading.{misnumbered, no_reading, record_of};
ghost use Rattle.export_rules.specs.TwoSteps.{ReadingFinished};
ghost use Rattle.cuzhantir.specs.Private.Taken.{Taken};

use crate::numbers::{READING_LENGTH, REFUSED};
use box_refusal::{Cause, Refusal};
use picture_rules::Settings;
use read_record::{Jp2, Palette, Span};

// Positions in a reading.
const KIND: usize = 0;

const VALUE: usize = 1;

const PLACE: usize = 2;

const PCLR_PLACE: usize = 33;

const PCLR_ENTRIES: usize = 34;

const PCLR_COLUMNS: usize = 35;

const CMAP_PLACE: usize = 36;

const CMAP_COUNT: usize = 37;

const CDEF_PLACE: usize = 38;

const CDEF_COUNT: usize = 39;

// The last of document 01's numbers by which reading refuses.
const LAST_OF_READING: u64 = Cause::NoDefinitions as u64;

// The largest number of 32 bits.
const LARGEST: u64 = 4294967295;

// Whether a refusal of reading has a number that reading does not give.
fn is_misnumbered(kind: u64, number: u64) -> bool
    ensures { result ≡ holds (misnumbered kind number) }
{
    kind == REFUSED && (number == 0 || LAST_OF_READING < number)
}

// Whether a list is too short for a reading, or has numbers that no reading has: number 29.
fn no_reading(xs: &[u64]) -> bool
    ensures { result ≡ holds (no_reading xs.now) }
{
    xs.len() < READING_LENGTH
        || REFUSED < xs[KIND]
        || is_misnumbered(xs[KIND], xs[VALUE])
        || LARGEST < xs[PCLR_ENTRIES]
        || LARGEST < xs[PCLR_COLUMNS]
}

// The record of a reading, as far as finishing looks at it: its palette, mappings and definitions.
fn record_of(xs: &[u64]) -> Jp2
    requires { Taken xs.now }
    ensures { result ≡ record_of xs.now }
{
    let mut m = read_record::opj_jp2_create();
    m.lists.pclr = Palette {
        place: xs[PCLR_PLACE] as usize,
        entries: xs[PCLR_ENTRIES] as u32,
        columns: xs[PCLR_COLUMNS] as u32,
    };
    m.lists.cmap = Span {
        place: xs[CMAP_PLACE] as usize,
        count: xs[CMAP_COUNT] as usize,
    };
    m.lists.cdef = Span {
        place: xs[CDEF_PLACE] as usize,
        count: xs[CDEF_COUNT] as usize,
    };
    m
}

// Finishes a picture with the numbers of its file's reading. A refusal of reading is answered as it is. The promise includes demand 3, where the numbers are those of that reading. The parameters are those of the entry for C, but for the settings.
pub fn finish_reading(
    file: &[u8],
    reading: &[u64],
    s: Settings,
    comps: &[u32],
    count: u32,
    samples: &[i32],
    records: &mut [u32],
    planes: &mut [i32],
) -> Result<u32, Refusal<u64>>
    ensures { ReadingFinished (handed file.now s comps.now count samples.now records.old planes.old) reading.now (told result) records.old records.new planes.old planes.new }
{
    if no_reading(reading) {
        return Err(Refusal {
            cause: Cause::OutsideItsList,
            place: 0,
        });
    }
    if reading[KIND] == REFUSED {
        return Err(Refusal {
            cause: Cause::try_from(reading[VALUE]).unwrap(),
            place: reading[PLACE],
        });
    }
    let m = record_of(reading);
    picture_finish::opj_jp2_apply_color_postprocessing(
        file, m, s, comps, count, samples, records, planes,
    )
}
