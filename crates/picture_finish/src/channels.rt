// The channels of a picture (`opj_jp2_apply_pclr` of jp2.rs): their records and their samples, packed into the destinations one after the other.
ghost use Rattle.std.specs.Prelude.{◌+◌, ◌*◌, ◌≤◌, ◌<◌, ◌≡◌, length};
ghost use Rattle.box_number.specs.Number.{number, placed};
ghost use Rattle.read_record.specs.Component.{numbers_each};
ghost use Rattle.picture_rules.specs.Image.{component, most_samples, size};
ghost use Rattle.picture_rules.specs.Channels.{component_of};
ghost use Rattle.picture_rules.specs.Samples.{start_of};
ghost use Rattle.picture_rules.specs.Finish.{expanded_from};
ghost use Rattle.picture_rules.specs.Answers.{fronted};
ghost use Rattle.picture_finish.specs.Private.Parts.{record_at, looked_up, samples_at, Packable, Roomy, unordered};

use crate::Passed;
use picture_planes::Column;
use read_channels::MAPPING_BYTES;

// The type of a channel that is looked up in the palette.
const PALETTE: u8 = 1;

// A column's depth is in the bits below this one of its byte, and its sign in this one.
const SIGN_BIT: u32 = 128;

impl Passed<'_> {
    // The component of channel c.
    fn component_of(&self, c: u32) -> u32
        ensures { result ≡ component_of self.now.f.now self.now.m c }
    {
        let l = self.m.lists.cmap;
        if l.count == 0 {
            return c;
        }
        let list = box_number::part(self.f, l.place, self.f.len());
        u32::from(box_number::read_u16(list, MAPPING_BYTES * c as usize))
    }

    // Whether channel c is looked up in the palette.
    fn is_looked_up(&self, c: u32) -> bool
        ensures { result ≡ looked_up self.now.f.now self.now.m.lists.cmap self.now.checked.corrected c }
    {
        let l = self.m.lists.cmap;
        let list = box_number::part(self.f, l.place, self.f.len());
        self.checked.corrected
            || l.count != 0 && box_number::read_u8(list, MAPPING_BYTES * c as usize + 2) == PALETTE
    }

    // Number k of component r, whose record lies in its list. By its index: `Lent::component` tests for each number whether it is there, which takes a fifth of the instructions for a channel without samples.
    fn component_number(&self, r: u32, k: u32) -> u32
        requires { numbers_each * r + k < length self.now.lent.now.components }
        ensures { result ≡ component self.now.lent.now r k }
    {
        let lent = self.lent;
        lent.comps[read_record::COMPONENT_NUMBERS * r as usize + k as usize]
    }

    // Number k of the record of a channel whose component is r, whose column has the depth and sign b where there are mappings, and whose samples start at a place.
    #[tactic(auto, unfolding(box_number::specs::Table::table))]
    fn expanded_number(&self, b: u8, r: u32, start: u32, k: u32) -> u32
        requires { (numbers_each * r + numbers_each ≤ length self.now.lent.now.components) × (k < numbers_each) }
        ensures { result ≡ expanded_from b self.now.m.lists.cmap.count self.now.lent.now r start k }
    {
        let mapped = self.m.lists.cmap.count != 0;
        match k {
            read_record::PREC if mapped => u32::from(b) % SIGN_BIT + 1,
            read_record::SGND if mapped => u32::from(b) / SIGN_BIT,
            read_record::DATA
                if self.component_number(r, read_record::DATA) != read_record::NO_DATA => start,
            _ => self.component_number(r, k),
        }
    }

    // Puts the record of channel c to its place.
    fn pack_record(&self, b: u8, c: u32, r: u32, start: u32, records: &mut [u32])
        requires room { numbers_each * c + numbers_each ≤ length records.old }
        requires inside { numbers_each * r + numbers_each ≤ length self.now.lent.now.components }
        ensures { records.new ≡ placed records.old (numbers_each * c) (record_at b self.now.m.lists.cmap.count self.now.lent.now r start) }
    {
        let at = read_record::COMPONENT_NUMBERS * c as usize;
        for k in 0..read_record::COMPONENT_NUMBERS {
            records[at + k] = self.expanded_number(b, r, start, k as u32);
        }
    }

    // Puts the samples of a channel to a place: those of its component r, copied or looked up in the column k of s. Answers where they end.
    // The list and the place are two parameters, here and in pack_channel: the clauses are on the list, and the place is a number of its own, where the samples start.
    fn pack_samples(
        &self,
        s: &[u8],
        k: Column,
        r: u32,
        looked_up: bool,
        planes: &mut [i32],
        at: usize,
    ) -> usize
        requires { Packable k self.now.lent.now r looked_up (length planes.old) at }
        ensures { (result ≡ at + size self.now.lent.now r) × (planes.new ≡ placed planes.old at (samples_at s.now k self.now.lent.now r looked_up)) }
    {
        let lent = self.lent;
        let first = lent.component(r, read_record::DATA);
        if first == read_record::NO_DATA {
            return at;
        }
        let n = lent.size(r) as usize;
        // Both answer that the plane fits, by Packable.
        if looked_up {
            picture_planes::lookup_plane(s, k, lent.samples, first as usize, n, planes, at);
        } else {
            picture_planes::copy_plane(lent.samples, first as usize, n, planes, at);
        }
        at + n
    }

    // Puts the record and the samples of channel c to their places. The list s starts at the depths of the palette's columns. Answers where the samples end.
    fn pack_channel(
        &self,
        s: &[u8],
        k: Column,
        c: u32,
        records: &mut [u32],
        planes: &mut [i32],
        at: usize,
    ) -> usize
        requires numbers_each_in_bounds { (numbers_each * c + numbers_each ≤ length records.old) × (at ≤ most_samples) }
        requires packable { let p = self.now in Packable k p.lent.now (component_of p.f.now p.m c) (looked_up p.f.now p.m.lists.cmap p.checked.corrected c) (length planes.old) at }
        ensures value { let p = self.now in result ≡ at + size p.lent.now (component_of p.f.now p.m c) }
        ensures records_after { let p = self.now in records.new ≡ placed records.old (numbers_each * c) (record_at (number s.now c 1) p.m.lists.cmap.count p.lent.now (component_of p.f.now p.m c) at) }
        ensures planes_after { let p = self.now in planes.new ≡ placed planes.old at (samples_at s.now k p.lent.now (component_of p.f.now p.m c) (looked_up p.f.now p.m.lists.cmap p.checked.corrected c)) }
    {
        let r = self.component_of(c);
        let b = box_number::read_u8(s, c as usize);
        self.pack_record(b, c, r, at as u32, records);
        let looked_up = self.is_looked_up(c);
        self.pack_samples(s, k, r, looked_up, planes, at)
    }

    // Packs all channels into the destinations, each one's samples after those of the channels before it.
    pub fn opj_jp2_apply_pclr(&self, records: &mut [u32], planes: &mut [i32])
        requires { Roomy self.now.f.now self.now.m self.now.lent.now self.now.checked.channels (length records.old) (length planes.old) }
        ensures records_after { records.new ≡ fronted (unordered self.now.f.now self.now.m self.now.lent.now).components records.old }
        ensures planes_after { planes.new ≡ fronted (unordered self.now.f.now self.now.m self.now.lent.now).samples planes.old }
    {
        let pclr = self.m.lists.pclr;
        let columns = pclr.columns;
        let s = box_number::part(self.f, pclr.place, self.f.len());
        let row = read_palette::row_bytes(s, 0, columns as u8);
        let mut off = columns as usize;
        let mut at: usize = 0;
        for c in 0..self.checked.channels {
            let wide = read_palette::entry_bytes(box_number::read_u8(s, c as usize));
            let k = Column {
                place: off as u32,
                step: row as u32,
                wide: wide as u32,
                entries: pclr.entries,
            };
            at = self.pack_channel(s, k, c, records, planes, at);
            off += wide;
        }
    }

    // How many samples all channels have.
    pub fn needed_samples(&self) -> u64
        ensures { result ≡ start_of self.now.f.now self.now.m self.now.lent.now self.now.checked.channels }
    {
        (0..self.checked.channels)
            .map(|c| self.lent.size(self.component_of(c)))
            .sum()
    }
}
