// The lists of a record, which lie in the file: each is some items of one size, a palette's rows among them.
use crate::say::Report;
use read_record::{Palette, Span};

impl<P: Print> Report<'_, P> {
    // A list with the text before it. For people an empty list is not printed.
    pub(crate) fn list<F: Fn(usize, &[u8])>(&self, head: &[u8], size: usize, list: Span, show: F)
        requires { F.IsAlwaysCallable show }
    {
        if self.json || list.count != 0 {
            self.say(head);
        }
        self.items(self.from(list.place), size, list.count, show);
        self.say(b"|]")
    }

    // The bytes of the file from a place on.
    fn from(&self, place: usize) -> &[u8] {
        box_number::part(self.file, place, self.file.len())
    }

    // Shows n items that c begins with, each by its place in the list and its bytes.
    fn items<F: Fn(usize, &[u8])>(&self, c: &[u8], size: usize, n: usize, show: F)
        requires { F.IsAlwaysCallable show }
    {
        let mut rest = c;
        for i in 0..n {
            let (item, after) = rest.split_at(size.min(rest.len()));
            if i != 0 {
                self.say(b"|,");
            }
            show(i, item);
            rest = after;
        }
    }

    // The depths of a palette's columns.
    pub(crate) fn columns(&self, p: Palette) {
        let n = p.columns as usize;
        self.items(self.from(p.place), 1, n, |i, c| self.column(i, c))
    }

    // The rows of a palette, which follow the depths. NPC has one byte.
    pub(crate) fn entries(&self, p: Palette) {
        let list = self.from(p.place);
        let n = u8::try_from(p.columns).unwrap_or(255);
        let depths = box_number::part(list, 0, n as usize);
        let size = read_palette::row_bytes(depths, 0, n);
        let rows = box_number::part(list, n as usize, list.len());
        self.items(rows, size, p.entries as usize, |i, c| {
            self.entry(i, depths, c)
        })
    }

    fn entry(&self, i: usize, depths: &[u8], c: &[u8]) {
        self.fill(b"\n    entry #: |[", &[i]);
        self.row(depths, c);
        self.say(b"|]")
    }
}
