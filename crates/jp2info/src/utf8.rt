// The characters of UTF-8 (RFC 3629). The promise names the ranges of the RFC; that of std's from_utf8 names another definition.
// Not a match on slice patterns: with the same ranges it leaves 135 goals.
ghost use Rattle.std.specs.Prelude.{◌≡◌};
ghost use Rattle.box_number.specs.Table.{holds};
ghost use Rattle.jp2info.specs.Utf8.{within, pair, UTF8-3, UTF8-4, character};

// The bytes of the character that s starts with; 0 where it starts with none, so that the definition is one number and its caller takes one byte at least.
#[tactic(auto, unfolding(crate::specs::Utf8::character, box_number::specs::Table::table))]
pub fn character(s: &[u8]) -> usize
    ensures { result ≡ character s.now }
{
    if s.is_empty() {
        0
    } else if within(s, 0, 0x00, 0x7f) {
        1
    } else if pair(s, 0xc2, 0xdf, 0x80, 0xbf) {
        2
    } else if is_three(s) {
        3
    } else if is_four(s) {
        4
    } else {
        0
    }
}

// A byte past the end counts as 0.
#[tactic(auto, unfolding(crate::specs::Utf8::within))]
fn within(s: &[u8], i: usize, low: u8, high: u8) -> bool
    ensures { result ≡ holds (within s.now i low high) }
{
    (low..=high).contains(&box_number::read_u8(s, i))
}

// The first byte in one range, and the second in another.
#[tactic(auto, unfolding(crate::specs::Utf8::pair))]
fn pair(s: &[u8], low: u8, high: u8, low2: u8, high2: u8) -> bool
    ensures { result ≡ holds (pair s.now low high low2 high2) }
{
    within(s, 0, low, high) && within(s, 1, low2, high2)
}

// No character is written longer than it has to be (e0, f0), none is a surrogate (ed), and none is above 0x10ffff (f4).
fn is_three(s: &[u8]) -> bool
    ensures { result ≡ holds (UTF8-3 s.now) }
{
    within(s, 2, 0x80, 0xbf)
        && (pair(s, 0xe0, 0xe0, 0xa0, 0xbf)
            || pair(s, 0xe1, 0xec, 0x80, 0xbf)
            || pair(s, 0xed, 0xed, 0x80, 0x9f)
            || pair(s, 0xee, 0xef, 0x80, 0xbf))
}

fn is_four(s: &[u8]) -> bool
    ensures { result ≡ holds (UTF8-4 s.now) }
{
    within(s, 2, 0x80, 0xbf)
        && within(s, 3, 0x80, 0xbf)
        && (pair(s, 0xf0, 0xf0, 0x90, 0xbf)
            || pair(s, 0xf1, 0xf3, 0x80, 0xbf)
            || pair(s, 0xf4, 0xf4, 0x80, 0x8f))
}
