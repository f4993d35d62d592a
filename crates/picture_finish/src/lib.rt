// Finishing a picture (`opj_jp2_apply_color_postprocessing` of jp2.rs): its channels, from the palette where there is one, as planes in the order of their colours.
// All tests come first; the two destinations are written after the last of them, each channel in one pass.
#![tactic(auto)]

ghost use Rattle.std.specs.Prelude.{ℕ, ◌*◌, ◌≤◌, ◌≡◌, length};
ghost use Rattle.box_number.specs.Table.{◌and◌, holds};
ghost use Rattle.box_refusal.specs.Told.{told};
ghost use Rattle.read_record.specs.Component.{numbers_each};
ghost use Rattle.picture_order.specs.Flat.{reordered};
ghost use Rattle.picture_rules.specs.Channels.{channels, mapped, corrected};
ghost use Rattle.picture_rules.specs.Finish.{counted, fitted, finish};
ghost use Rattle.picture_rules.specs.Answers.{answered, Done};
ghost use Rattle.picture_rules.specs.Whole.{handed, ReadPicture};
ghost use Rattle.picture_finish.specs.Private.Parts.{Tested};

use box_refusal::{Cause, Refusal};
use picture_check::Checked;
use picture_check::lent::Lent;
use picture_order::Definitions;
use picture_rules::Settings;
use read_record::{Jp2, Lists};

mod channels;

const MOST_SAMPLES: u64 = 4294967294;

// What the settings leave of the record: with any ignore flag but 0 palette, mappings and definitions count for nothing.
#[tactic(auto, unfolding(picture_rules::specs::Finish::counted, box_number::specs::Table::table))]
fn counted(s: Settings, m: Jp2) -> Jp2
    ensures { result ≡ counted s m }
{
    if s.ignore == 0 {
        return m;
    }
    let lists = Lists {
        pclr: read_record::NO_PALETTE,
        cmap: read_record::NO_LIST,
        cdef: read_record::NO_LIST,
        ..m.lists
    };
    Jp2 { lists, ..m }
}

// A picture that has passed the checks: its file f, what the settings leave of the record m, its components and samples, and the answer of the checks.
#[derive(Drop)]
struct Passed<'a> {
    f: &'a [u8],
    m: Jp2,
    lent: &'a Lent<'a>,
    checked: Checked,
    ghost tested: { Tested f.now m lent.now },
    ghost all: { checked.channels ≡ channels m lent.now.count },
    ghost flags: { checked.corrected ≡ holds (mapped m and corrected f.now m.lists.cmap lent.now.count) },
}

// The two destinations stay two parameters: each clause names each of them before and after, as `records.old records.new planes.old planes.new`, and a struct of both makes none shorter.
impl Passed<'_> {
    // Puts the records of the channels into the order of the definitions, where there are any.
    fn order(&self, edition2: u32, records: &mut [u32])
        requires { numbers_each * self.now.checked.channels ≤ length records.old }
        ensures { records.new ≡ reordered edition2 self.now.f.now self.now.m.lists.cdef self.now.checked.channels records.old }
    {
        let cdef = self.m.lists.cdef;
        if cdef.count == 0 {
            return;
        }
        let d = Definitions { cdef, edition2 };
        // 29 was tested, so nothing is refused.
        let _ = picture_order::opj_jp2_apply_cdef(self.f, d, records, self.checked.channels);
    }

    // Whether the destinations have room for the channels (number 30): how many planes there will be, or the length that is needed. It is the same in both editions.
    fn room(&self, records: usize, planes: usize) -> Result<u32, Refusal<u64>>
        ensures { (edition2 : ℕ) → told result ≡ answered (fitted edition2 self.now.f.now self.now.m self.now.lent.now records planes) }
    {
        let n = self.checked.channels;
        let numbers = read_record::COMPONENT_NUMBERS * n as usize;
        if records < numbers {
            return Err(Refusal {
                cause: Cause::DestinationTooShort,
                place: numbers as u64,
            });
        }
        let needed = self.needed_samples();
        if MOST_SAMPLES < needed || planes < needed as usize {
            return Err(Refusal {
                cause: Cause::DestinationTooShort,
                place: needed,
            });
        }
        Ok(n)
    }

    // Finishes the picture: number 30, then the channels are packed and put in order.
    fn colour(
        &self,
        edition2: u32,
        records: &mut [u32],
        planes: &mut [i32],
    ) -> Result<u32, Refusal<u64>>
        ensures { Done (fitted edition2 self.now.f.now self.now.m self.now.lent.now (length records.old) (length planes.old)) (told result) records.old records.new planes.old planes.new }
    {
        let n = self.room(records.len(), planes.len())?;
        self.opj_jp2_apply_pclr(records, planes);
        self.order(edition2, records);
        Ok(n)
    }
}

// Finishes the picture of the file f with the record m from reading it: the components and their samples are lent, and so are the destinations for the records of the
// finished planes and for their samples. They are parameters of their own here and in read_picture, as the entries for C pass them: the clauses are on `handed` of all of them, and a struct would be taken apart in each. With any ignore flag but 0 in the settings s the components are copied as they are; the edition decides about marks, and whether channel 0 has to be defined.
pub fn opj_jp2_apply_color_postprocessing(
    f: &[u8],
    m: Jp2,
    s: Settings,
    comps: &[u32],
    count: u32,
    samples: &[i32],
    records: &mut [u32],
    planes: &mut [i32],
) -> Result<u32, Refusal<u64>>
    ensures { Done (finish (handed f.now s comps.now count samples.now records.old planes.old) m) (told result) records.old records.new planes.old planes.new }
{
    let lent = Lent {
        comps,
        count,
        samples,
    };
    let checked = picture_check::opj_jp2_check_color(f, m, s, &lent)?;
    let passed = Passed {
        f,
        m: counted(s, m),
        lent: &lent,
        checked,
    };
    passed.colour(s.edition2, records, planes)
}

// From a file's bytes to its finished planes, in one step.

// Reads a file and finishes its picture: the components, their samples and the two destinations are lent, as for finishing alone. A refusal of reading is answered as it is.
// The promise includes demand 3: wherever one looks in the destinations, the sample is the right one, and the order of the file's definitions does not matter; and what of it needs no premise. In edition 2 each plane has the mark of its own channel's definition.
pub fn read_picture(
    file: &[u8],
    s: Settings,
    comps: &[u32],
    count: u32,
    samples: &[i32],
    records: &mut [u32],
    planes: &mut [i32],
) -> Result<u32, Refusal<u64>>
    ensures { ReadPicture (handed file.now s comps.now count samples.now records.old planes.old) (told result) records.old records.new planes.old planes.new }
{
    let m = read_file::read_file(file)?.jp2;
    opj_jp2_apply_color_postprocessing(file, m, s, comps, count, samples, records, planes)
}
