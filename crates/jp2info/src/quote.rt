// Texts from outside the program: a file's name, a brand. They are shown so that no byte of them controls a terminal or breaks a line of JSON.
ghost use Rattle.std.specs.Prelude.{◌/◌, ◌%◌, ◌<◌, ◌≡◌, [], ◌∷◌, ◌++◌};
ghost use Rattle.text.specs.Text.{put, after};
ghost use Rattle.jp2info.specs.Quote.{digit, escape, shown_byte, together, first_character, quoted};

use crate::utf8::character;
use text::text;

// Characters of 2 or more bytes and printing ASCII come as they are, any other byte as \x1b for people and as \u001b in JSON.
// A backslash, and in JSON a quotation mark, gets a backslash before it.
// To a list and a place in it, as in the crate text; a Display would have to hand out text, and s is bytes.
// A loop over what is left: a character has one byte or more, so there is no index to count. `json` is handed on, since the two forms differ in the quotation mark and in the letters before a number alone.
#[tactic(auto, using(crate::proofs::Quotes::together_fits, crate::proofs::Quotes::rest_less, crate::proofs::Quotes::going_start, crate::proofs::Quotes::going_turn))]
pub fn quote(d: &mut [u8], at: usize, json: bool, s: &[u8]) -> usize
    ensures { (result ≡ after d.old at (quoted json s.now)) × (d.new ≡ put d.old at (quoted json s.now)) }
{
    let mut k = at;
    let mut rest = s;
    while !rest.is_empty() {
        let n = together(rest);
        k = front(d, k, json, n, rest);
        rest = &rest[n..];
    }
    k
}

// How many bytes at the front go together.
#[tactic(auto, unfolding(crate::specs::Quote::together, box_number::specs::Table::table))]
fn together(s: &[u8]) -> usize
    ensures { result ≡ together s.now }
{
    character(s).max(1)
}

fn front(d: &mut [u8], at: usize, json: bool, n: usize, s: &[u8]) -> usize
    ensures { (result ≡ after d.old at (first_character json n s.now)) × (d.new ≡ put d.old at (first_character json n s.now)) }
{
    if 1 < n {
        text(d, at, box_number::part(s, 0, n))
    } else {
        shown(d, at, json, box_number::read_u8(s, 0))
    }
}

#[tactic(auto, unfolding(crate::specs::Quote::shown_byte, box_number::specs::Table::table))]
fn shown(d: &mut [u8], at: usize, json: bool, b: u8) -> usize
    ensures { (result ≡ after d.old at (shown_byte json b)) × (d.new ≡ put d.old at (shown_byte json b)) }
{
    match b {
        b'\\' => text(d, at, &[b'\\', b]),
        b'"' if json => text(d, at, &[b'\\', b]),
        b' '..=b'~' => text(d, at, &[b]),
        _ => by_number(d, at, json, b),
    }
}

fn by_number(d: &mut [u8], at: usize, json: bool, b: u8) -> usize
    ensures { (result ≡ after d.old at (escape json ++ (digit (b / 16) ∷ digit (b % 16) ∷ []))) × (d.new ≡ put d.old at (escape json ++ (digit (b / 16) ∷ digit (b % 16) ∷ []))) }
{
    let k = escape(d, at, json);
    text(d, k, &[digit(b / 16), digit(b % 16)])
}

#[tactic(auto, unfolding(crate::specs::Quote::escape, box_number::specs::Table::table))]
fn escape(d: &mut [u8], at: usize, json: bool) -> usize
    ensures { (result ≡ after d.old at (escape json)) × (d.new ≡ put d.old at (escape json)) }
{
    if json {
        text(d, at, b"\\u00")
    } else {
        text(d, at, b"\\x")
    }
}

#[tactic(auto, unfolding(crate::specs::Quote::digit, box_number::specs::Table::table))]
fn digit(n: u8) -> u8
    requires { n < 16 }
    ensures { result ≡ digit n }
{
    if n < 10 { b'0' + n } else { b'a' + (n - 10) }
}
