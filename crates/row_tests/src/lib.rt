// What can be wrong with a word of a row of a bundle. The public tests ask nothing of their caller.
#![tactic(auto)]

ghost use Rattle.std.specs.Prelude.{◌≡◌, ◌+◌, ◌-◌, ◌≤◌, min, ◌&&◌, eqb, ltb, length};
ghost use Rattle.table.specs.Table.{word as word_of};
ghost use Rattle.row_tests.specs.Wrong.{no_string, no_optional, no_range, over, there, high_string, string_out, name_out, some_part, extensions_wrong, wrong};

use model::chain::RDNS;
use table::{Lent, STRINGS, Section, StringNo, word};

// What is looked for in a word of a row. The first number of a part's test is the word that marks the part.
#[derive(Clone, Copy)]
pub enum Test {
    StringOut,
    NumberOut,
    OptionalOut,
    RangeOut(Section),
    NameOut,
    PartNumber(u8),
    PartOptional(u8),
    PartRange(u8, Section),
    Over(u64),
    PartOver(u8, u64),
    Extensions,
    NumberHigh,
    DnsHigh,
    OptionalHigh,
    NotZero,
}

// Whether word p is no string number.
pub fn no_string(words: &[u64], p: usize) -> bool
    ensures { result ≡ no_string words.now p }
{
    table::count(words, STRINGS) <= word(words, p)
}

// Whether word p is neither 0 nor a string number plus 1.
fn no_optional(words: &[u64], p: usize) -> bool
    ensures { result ≡ no_optional words.now p }
{
    table::count(words, STRINGS) < word(words, p)
}

// Whether n things from the first on end past the last of so many. The sum is not made: it could wrap.
pub fn ends_past(first: u64, n: u64, count: u64) -> bool
    ensures { result ≡ ltb count (first + n) }
{
    if count < first {
        return true;
    }
    count - first < n
}

// The same of the two words from p on. Behind the last word nothing is read: p + 1 could wrap.
fn two_end_past(words: &[u64], p: usize, count: u64) -> bool
    ensures { result ≡ ltb count (word_of words.now p + word_of words.now (p + 1)) }
{
    if words.len() <= p {
        return false;
    }
    ends_past(word(words, p), word(words, p + 1), count)
}

// Whether words p and p + 1, first and count, are no range of the section.
pub fn no_range(words: &[u64], s: Section, p: usize) -> bool
    ensures { result ≡ no_range words.now s p }
{
    two_end_past(words, p, table::count(words, s))
}

// Whether word p is above a number.
fn over(words: &[u64], most: u64, p: usize) -> bool
    ensures { result ≡ over words.now most p }
{
    most < word(words, p)
}

// Whether a string has a byte over 127.
fn high_string(lent: Lent, n: StringNo) -> bool
    ensures { result ≡ high_string lent.entry.words.now lent.entry.bytes.now n.0 }
{
    ascii::has_high(table::string(lent, n))
}

// Whether the string with start and length at p and p + 1 ends outside the bytes.
pub fn string_out(lent: Lent, p: usize) -> bool
    ensures { result ≡ string_out lent.entry.words.now lent.entry.bytes.now p }
{
    two_end_past(lent.words, p, lent.bytes.len() as u64)
}

// Whether the string whose number is at p has a byte over 127.
pub fn number_high(lent: Lent, p: usize) -> bool
    ensures { result ≡ high_string lent.entry.words.now lent.entry.bytes.now (word_of lent.entry.words.now p) }
{
    high_string(lent, StringNo(word(lent.words, p)))
}

// The same of the DNS name at p, if the name that begins at q is one.
fn dns_high(lent: Lent, q: usize, p: usize) -> bool
    ensures { result ≡ (eqb (word_of lent.entry.words.now q) 0 && high_string lent.entry.words.now lent.entry.bytes.now (word_of lent.entry.words.now p)) }
{
    if word(lent.words, q) != 0 {
        return false;
    }
    number_high(lent, p)
}

// The same of an optional string, if it is there.
fn optional_high(lent: Lent, p: usize) -> bool
    ensures { result ≡ (there lent.entry.words.now p && high_string lent.entry.words.now lent.entry.bytes.now (word_of lent.entry.words.now p - 1)) }
{
    let n = word(lent.words, p);
    if n == 0 {
        return false;
    }
    high_string(lent, StringNo(n - 1))
}

// A row of a bundle that does not begin past the last word, so that no sum wraps.
#[derive(Clone, Copy)]
struct Row<'a> {
    lent: Lent<'a, 'a>,
    start: usize,
    ghost inside: { start ≤ length lent.words.now },
}

impl<'a> Row<'a> {
    // Whether word m of the row is not 0: a part is present, an optional string is there.
    fn there(self, m: u8) -> bool
        ensures { result ≡ there self.entry.lent.words.now (self.entry.start + m) }
    {
        word(self.lent.words, self.start + m as usize) != 0
    }

    // Whether the name has an x, or an x and y, that its kind does not allow.
    fn name_out(self) -> bool
        ensures { result ≡ name_out self.entry.lent.words.now self.entry.start }
    {
        let words = self.lent.words;
        let kind = word(words, self.start);
        match kind {
            0 | 2 => no_string(words, self.start + 1),
            1 => no_range(words, RDNS, self.start + 1),
            _ => false,
        }
    }

    // Whether the certificate has one of the nine parts.
    fn some_part(self) -> bool
        ensures { result ≡ some_part self.entry.lent.words.now self.entry.start }
    {
        self.there(15)
            | self.there(19)
            | self.there(21)
            | self.there(24)
            | self.there(28)
            | self.there(30)
            | self.there(33)
            | self.there(38)
            | self.there(39)
    }

    // Whether word 40 of the certificate is above 1, or 0 beside a part.
    fn extensions_wrong(self) -> bool
        ensures { result ≡ extensions_wrong self.entry.lent.words.now self.entry.start }
    {
        over(self.lent.words, 1, self.start + 40) | (!self.there(40) & self.some_part())
    }

    // Whether word j is wrong in the way that the test looks for. A match and no closures: a line's test is data, and `wrong` goes by its case.
    fn is_wrong(self, t: Test, j: u8) -> bool
        ensures { result ≡ wrong t self.entry.lent.words.now self.entry.lent.bytes.now self.entry.start j }
    {
        let lent = self.lent;
        let words = lent.words;
        let p = self.start + j as usize;
        match t {
            Test::StringOut => string_out(lent, p),
            Test::NumberOut => no_string(words, p),
            Test::OptionalOut => no_optional(words, p),
            Test::RangeOut(s) => no_range(words, s, p),
            Test::NameOut => self.name_out(),
            Test::PartNumber(m) => self.there(m) & no_string(words, p),
            Test::PartOptional(m) => self.there(m) & no_optional(words, p),
            Test::PartRange(m, s) => self.there(m) & no_range(words, s, p),
            Test::Over(most) => over(words, most, p),
            Test::PartOver(m, most) => self.there(m) & over(words, most, p),
            Test::Extensions => self.extensions_wrong(),
            Test::NumberHigh => number_high(lent, p),
            Test::DnsHigh => dns_high(lent, self.start, p),
            Test::OptionalHigh => optional_high(lent, p),
            Test::NotZero => self.there(j),
        }
    }
}

// Whether word j of the row at q is wrong in the way that the test looks for. A row that begins past the last word reads as one that begins right behind it: as zeros.
pub fn is_wrong(lent: Lent, t: Test, q: usize, j: u8) -> bool
    ensures { result ≡ wrong t lent.entry.words.now lent.entry.bytes.now q j }
{
    let start = q.min(lent.words.len());
    Row { lent, start }.is_wrong(t, j)
}
