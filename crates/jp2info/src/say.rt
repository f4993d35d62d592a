// Pieces of what is said of a file, each written at once. A piece is one text with two forms: the one for people, a bar, and the one for JSON (docs/DECISIONS.md, 74).
ghost use Rattle.std.specs.Prelude.{◌≡◌};
ghost use Rattle.text.specs.Text.{put, after, filled};
ghost use Rattle.jp2info.specs.Private.Say.{form};

use crate::quote;
use std::io;

// The byte between the two forms.
const BAR: u8 = b'|';

// Where it is printed, whether as JSON, and the bytes of the file.
#[derive(Drop)]
pub(crate) struct Report<'a, P> {
    pub(crate) rt: P,
    pub(crate) json: bool,
    pub(crate) file: &'a [u8],
}

impl<P: Print> Report<'_, P> {
    // The form of a piece that is printed.
    #[tactic(auto, unfolding(crate::specs::Private::Say::form, box_number::specs::Table::table))]
    fn form<'b>(&self, piece: &'b [u8]) -> &'b [u8]
        ensures { result.now ≡ form self.now.json piece.now }
    {
        text::line(piece, BAR, usize::from(self.json))
    }

    // The same in a list, where each # is replaced by the next of the numbers. Answers how many bytes that is.
    fn filled(&self, d: &mut [u8], piece: &[u8], numbers: &[usize]) -> usize
        ensures { (result ≡ after d.old 0 (filled (form self.now.json piece.now) numbers.now)) × (d.new ≡ put d.old 0 (filled (form self.now.json piece.now) numbers.now)) }
    {
        text::fill(d, 0, self.form(piece), numbers)
    }

    // A piece, and whether it arrived.
    pub(crate) fn write(&self, piece: &[u8]) -> io::Result<()> {
        self.rt.write_all(self.form(piece))
    }

    pub(crate) fn say(&self, piece: &[u8]) {
        let _ = self.write(piece);
    }

    // A piece in which each # is replaced by the next of the numbers. It has room: a form has fewer than 60 bytes, and four numbers at most, of 20 digits at most.
    // No longer list is taken, since each call fills it with zeros.
    pub(crate) fn fill(&self, piece: &[u8], numbers: &[usize]) {
        let mut d = [0u8; 256];
        let n = self.filled(&mut d, piece, numbers);
        let _ = self.rt.write_all(box_number::part(&d, 0, n));
    }

    // A word that both forms have, without a quotation mark in it.
    pub(crate) fn word(&self, word: &str) {
        let _ = self.rt.write_all(word.as_bytes());
    }

    // A word for people alone.
    pub(crate) fn note(&self, word: &str) {
        if !self.json {
            self.word(word);
        }
    }

    // A text from outside: a file's name, of 4096 bytes at most, or a brand. It has room even where each byte takes six.
    pub(crate) fn quoted(&self, s: &[u8]) {
        let mut d = [0u8; 65536];
        let n = quote::quote(&mut d, 0, self.json, s);
        let _ = self.rt.write_all(box_number::part(&d, 0, n));
    }

    // The values of a palette's row: 255 at most, of ten digits at most. This, join and fill stay three: each calls another function of `text`, with other lists.
    pub(crate) fn row(&self, depths: &[u8], c: &[u8]) {
        let mut d = [0u8; 4096];
        let n = text::row(&mut d, 0, &[self.between()], depths, c);
        let _ = self.rt.write_all(box_number::part(&d, 0, n));
    }

    pub(crate) fn join(&self, numbers: &[u32]) {
        let mut d = [0u8; 4096];
        let n = text::join(&mut d, 0, &[self.between()], numbers);
        let _ = self.rt.write_all(box_number::part(&d, 0, n));
    }

    // The byte between two numbers.
    fn between(&self) -> u8 {
        if self.json { b',' } else { b' ' }
    }
}
