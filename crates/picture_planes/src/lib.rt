// Planes of samples (`opj_jp2_apply_pclr` of jp2.rs): copied, or looked up in a column of a palette, from one list of samples to another.
#![tactic(auto)]

ghost use Rattle.std.specs.Prelude.{◌<◌, ◌≤◌, ◌+◌, ◌≡◌, map, length};
ghost use Rattle.box_number.specs.Number.{placed};
ghost use Rattle.box_number.specs.Table.{◌or◌, holds};
ghost use Rattle.picture_rules.specs.Finish.{most_entries};
ghost use Rattle.picture_planes.specs.Written.{is_written, written_unless};
ghost use Rattle.picture_planes.specs.Column.{most_bytes, no_column, entry_at, column, picked};
ghost use Rattle.picture_planes.specs.Plane.{samples_of, samples_outside};
ghost use Rattle.picture_planes.specs.Private.Entry.{entry_for};

// The most entries of a column.
const MOST_ENTRIES: usize = 1024;

// The most bytes of an entry.
const MOST_BYTES: u32 = 4;

// A column of entries in a list of bytes: the place of its first entry, the bytes from one entry to the next, the bytes of an entry, and how many entries there are. In 32 bits, so that the place of an entry does not wrap.
#[derive(Clone, Copy)]
pub struct Column {
    pub place: u32,
    pub step: u32,
    pub wide: u32,
    pub entries: u32,
}

impl Column {
    // Whether it has no entries, too many of them, or too many bytes in an entry.
    fn is_refused(self) -> bool
        ensures { result ≡ holds (no_column self) }
    {
        self.entries == 0 || MOST_ENTRIES < self.entries as usize || MOST_BYTES < self.wide
    }

    // Entry j, as a sample. A byte past the end of s counts as 0.
    fn entry(self, s: &[u8], j: usize) -> i32
        requires { (j < most_entries) × (self.wide ≤ most_bytes) }
        ensures { result ≡ entry_at s.now self j }
    {
        let at = self.place as usize + j * self.step as usize;
        let e = box_number::opj_read_bytes(s, at, self.wide as usize);
        e.cast_signed()
    }

    // The first entries, as many as out has elements.
    fn read(self, s: &[u8], out: &mut [i32])
        requires { (length out.old ≤ most_entries) × (self.wide ≤ most_bytes) }
        ensures { out.new ≡ column s.now self (length out.old) }
    {
        for (j, e) in out.iter_mut().enumerate() {
            *e = self.entry(s, j);
        }
    }
}

// Copies the n samples of src from a place on to a place of dst. A loop: `copy_from_slice` takes a tenth more time for planes that do not fit into the cache.
fn copy_inside(src: &[i32], from: usize, n: usize, dst: &mut [i32], at: usize)
    requires { (from + n ≤ length src.now) × (at + n ≤ length dst.old) }
    ensures { dst.new ≡ placed dst.old at (samples_of src.now from n) }
{
    for k in 0..n {
        dst[at + k] = src[from + k];
    }
}

// Copies the n samples of src from a place on to a place of dst; false, with nothing changed, where they do not lie in both.
// Places and a count, no slices: that they lie in both lists is tested here and asked of no caller.
#[tactic(auto, unfolding(crate::specs::Written::is_written, crate::specs::Written::written_unless, box_number::specs::Table::table))]
pub fn copy_plane(src: &[i32], from: usize, n: usize, dst: &mut [i32], at: usize) -> bool
    ensures value { result ≡ is_written (samples_outside src.now from n dst.old at) }
    ensures dst_after { dst.new ≡ written_unless (samples_outside src.now from n dst.old at) dst.old at (samples_of src.now from n) }
{
    if box_number::lies_outside(src.len(), from, n) || box_number::lies_outside(dst.len(), at, n) {
        return false;
    }
    copy_inside(src, from, n, dst, at);
    true
}

// The entry that a sample picks.
fn pick(entries: &[i32], s: i32) -> i32
    requires { 0 < length entries.now }
    ensures { result ≡ entry_for entries.now s }
{
    entries[(s.max(0) as usize).min(entries.len() - 1)]
}

// Looks each sample of src up. Four a turn: one a turn takes 5 in a hundred more time (measured).
fn look_up(entries: &[i32], src: &[i32], dst: &mut [i32])
    requires { (0 < length entries.now) × (length src.now ≡ length dst.old) }
    ensures { dst.new ≡ map (entry_for entries.now) src.now }
{
    let fours = src.len() / 4;
    for i in 0..fours {
        for j in 4 * i..4 * i + 4 {
            dst[j] = pick(entries, src[j]);
        }
    }
    for k in 4 * fours..src.len() {
        dst[k] = pick(entries, src[k]);
    }
}

// The same as copy_plane, with each sample looked up in a column of s; false, with nothing changed, also where there is no such column.
#[tactic(auto, using(crate::proofs::Planes::put_placed), unfolding(crate::specs::Written::is_written, crate::specs::Written::written_unless, box_number::specs::Table::table))]
pub fn lookup_plane(
    s: &[u8],
    k: Column,
    src: &[i32],
    from: usize,
    n: usize,
    dst: &mut [i32],
    at: usize,
) -> bool
    ensures value { result ≡ is_written (no_column k or samples_outside src.now from n dst.old at) }
    ensures dst_after { dst.new ≡ written_unless (no_column k or samples_outside src.now from n dst.old at) dst.old at (map (picked s.now k) (samples_of src.now from n)) }
{
    if k.is_refused()
        || box_number::lies_outside(src.len(), from, n)
        || box_number::lies_outside(dst.len(), at, n)
    {
        return false;
    }
    let mut room = [0i32; MOST_ENTRIES];
    let entries = &mut room[..k.entries as usize];
    k.read(s, entries);
    look_up(entries, &src[from..from + n], &mut dst[at..at + n]);
    true
}
