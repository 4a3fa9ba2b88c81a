// Reads of a bundle's words and bytes that ask nothing of their caller: past the end a word is 0 and a part is cut off.
#![tactic(auto)]

ghost use Rattle.std.specs.Prelude.{◌≡◌, ℕ, ◌+◌, ◌*◌, ◌≤◌, min};
ghost use Rattle.table.specs.Table.{word as word_of, far, part, count_of, offset_of, field_of, two_fields_of, string_of, range_of};

// A bundle as its caller lends it: its words, and the bytes in which its strings lie. Each has a lifetime of its own: who holds a string borrows the bytes alone.
#[derive(Clone, Copy)]
pub struct Lent<'w, 'b> {
    pub words: &'w [u64],
    pub bytes: &'b [u8],
}

// The number of a string: a row of S.
#[derive(Clone, Copy)]
pub struct StringNo(pub u64);

// The position of a certificate in the chain: 0 is the leaf. As wide as a word of a report.
#[derive(Clone, Copy)]
pub struct CertPos(pub u32);

// The number of a rule. Document 01 names the form, and a report has the number.
#[derive(Clone, Copy)]
pub struct RuleNo(pub u32);

// Where a section stands: the word of the header that holds its count (the next holds its offset), and the words of a row. No slice of rows: they are read where they stand in the lent words.
#[derive(Clone, Copy)]
pub struct Section {
    pub count: usize,
    pub size: u64,
}

// Rows of one section, from the first up to but not including the last.
#[derive(Clone, Copy)]
pub struct Range {
    pub from: u64,
    pub to: u64,
}

// Two words of a row, one behind the other: a start and a length, a first row and a count.
#[derive(Clone, Copy)]
pub struct Two {
    pub first: u64,
    pub second: u64,
}

pub const STRINGS: Section = Section { count: 1, size: 2 };

// No slice has so many words: 2^60 words take 2^63 bytes. Three numbers up to it have a sum that doesn't wrap.
const FAR: u64 = 1152921504606846976;

// The word at a place, or 0 past the end.
pub fn word(words: &[u64], at: usize) -> u64
    ensures { result ≡ word_of words.now at }
{
    if at < words.len() { words[at] } else { 0 }
}

// The bytes from a start on, as many as are asked for and there.
pub fn cut(bytes: &[u8], start: u64, len: u64) -> &[u8]
    ensures { result.now ≡ part bytes.now start len }
{
    let total = bytes.len();
    if total as u64 <= start {
        return &bytes[..0];
    }
    let from = start as usize;
    if (total - from) as u64 <= len {
        return &bytes[from..];
    }
    let n = len as usize;
    &bytes[from..from + n]
}

// How many rows a section says that it has.
pub fn count(words: &[u64], s: Section) -> u64
    ensures { result ≡ count_of words.now s }
{
    let at = s.count;
    word(words, at)
}

// The word at which a section says that its first row begins. Where the section is a constant the first test falls away.
pub fn offset(words: &[u64], s: Section) -> u64
    ensures { result ≡ offset_of words.now s }
{
    let at = s.count;
    if at < FAR as usize {
        return word(words, at + 1);
    }
    0
}

// How many words n rows take, or as many as no slice has if that is more. Nothing wraps: the largest product is divided instead, which costs nothing where the size is a constant.
fn words_of(size: u64, n: u64) -> u64
    ensures { result ≡ min (size * n) far }
{
    if size == 0 {
        return 0;
    }
    if FAR / size < n {
        return FAR;
    }
    size * n
}

// Where row n of a section begins, or as far as no slice goes: word j of the row is j words behind. No sum wraps: what is far past the end is not added.
fn row_at(words: &[u64], s: Section, n: u64) -> u64
    ensures by_index { (j : ℕ) → word_of words.now (result + j) ≡ field_of words.now s n j }
    ensures upper_bound { result ≤ 2 * far }
{
    let at = offset(words, s);
    if words.len() as u64 <= at {
        return FAR;
    }
    at + words_of(s.size, n)
}

// Word j of row n of a section, or 0 where that lies past the end.
pub fn field(words: &[u64], s: Section, n: u64, j: u64) -> u64
    ensures { result ≡ field_of words.now s n j }
{
    let row = row_at(words, s, n);
    if FAR <= j {
        return 0;
    }
    word(words, (row + j) as usize)
}

// Words j and j + 1 of row n of a section.
pub fn two_fields(words: &[u64], s: Section, n: u64, j: u64) -> Two
    ensures { result ≡ two_fields_of words.now s n j }
{
    let row = row_at(words, s, n);
    if FAR <= j {
        return Two {
            first: 0,
            second: 0,
        };
    }
    let at = (row + j) as usize;
    Two {
        first: word(words, at),
        second: word(words, at + 1),
    }
}

// A string, as a part of the bytes.
pub fn string<'b>(lent: Lent<'_, 'b>, s: StringNo) -> &'b [u8]
    ensures { result.now ≡ string_of lent.entry.words.now lent.entry.bytes.now s.0 }
{
    let p = two_fields(lent.words, STRINGS, s.0, 0);
    cut(lent.bytes, p.first, p.second)
}

// The string that word j of row n of a section names.
pub fn string_named<'b>(lent: Lent<'_, 'b>, s: Section, n: u64, j: u64) -> &'b [u8]
    ensures { result.now ≡ string_of lent.entry.words.now lent.entry.bytes.now (field_of lent.entry.words.now s n j) }
{
    string(lent, StringNo(field(lent.words, s, n, j)))
}

// The rows of a range that its section has.
pub fn clip(first: u64, n: u64, rows: u64) -> Range
    ensures { result ≡ range_of first n rows }
{
    if rows <= first {
        return Range {
            from: first,
            to: rows,
        };
    }
    if rows - first <= n {
        return Range {
            from: first,
            to: rows,
        };
    }
    Range {
        from: first,
        to: first + n,
    }
}

#[cfg(test)]
mod tests {
    use super::{Lent, StringNo, string};

    // A string borrows the bytes alone: the words may be written while it is held. With one lifetime for both this is not compiled.
    #[test]
    fn string_outlives_words(rt: HostRuntime) {
        let mut words = [1u64, 1, 3, 0, 3];
        let bytes = *b"abc";
        let s = string(
            Lent {
                words: &words,
                bytes: &bytes,
            },
            StringNo(0),
        );
        words[0] = 2;
        assert!(rt; s == bytes.as_slice());
    }
}
