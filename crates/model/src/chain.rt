// The chain bundle: words of its header, its sections, and the numbers of their rows.
ghost use Rattle.std.specs.Prelude.{◌≡◌, ◌+◌};
ghost use Rattle.table.specs.Table.{field_of};
ghost use Rattle.model.specs.Decode.{rows_in, optional_string, task_of};
ghost use Rattle.model.specs.Shown.{Shows};

use table::{CertPos, Lent, Range, Section, StringNo};

pub const ATTRIBUTES: Section = Section { count: 3, size: 2 };

pub const RDNS: Section = Section { count: 5, size: 2 };

pub const NAMES: Section = Section { count: 7, size: 3 };

pub const USAGES: Section = Section { count: 9, size: 1 };

pub const CERTS: Section = Section {
    count: 11,
    size: 41,
};

// The word of the header that says whether there is a host, and which.
pub const HOST: usize = 13;

// The word of the header that holds the time.
pub const NOW: usize = 15;

#[derive(Clone, Copy)]
pub struct AttributeNo(pub u64);

#[derive(Clone, Copy)]
pub struct RdnNo(pub u64);

#[derive(Clone, Copy)]
pub struct NameNo(pub u64);

#[derive(Clone, Copy)]
pub struct UsageNo(pub u64);

// A row of C. A position in the chain is another number, though today the two are equal.
#[derive(Clone, Copy)]
pub struct CertRow(pub u64);

// The row of the certificate at a position.
pub fn row_of(p: CertPos) -> CertRow
    ensures { result.0 ≡ p.0 }
{
    CertRow(p.0 as u64)
}

// The rows of a range that a section has.
pub fn rows_in(words: &[u64], s: Section, first: u64, n: u64) -> Range
    ensures { result ≡ rows_in words.now s first n }
{
    table::clip(first, n, table::count(words, s))
}

// The rows of a section that words j and j + 1 of a row of another name: the first, and how many.
pub fn rows_named(words: &[u64], s: Section, n: u64, j: u64, of: Section) -> Range
    ensures { result ≡ rows_in words.now of (field_of words.now s n j) (field_of words.now s n (j + 1)) }
{
    let p = table::two_fields(words, s, n, j);
    rows_in(words, of, p.first, p.second)
}

// The string that a word gives: none where it is 0, and else the one whose number is one less.
pub fn optional_string<'b>(chain: Lent<'_, 'b>, word: u64) -> Option<&'b [u8]>
    ensures { Shows result (optional_string chain.entry.words.now chain.entry.bytes.now word) }
{
    let n = word.checked_sub(1)?;
    Some(table::string(chain, StringNo(n)))
}

// The host, if there is one.
pub fn host<'b>(chain: Lent<'_, 'b>) -> Option<&'b [u8]>
    ensures { Shows result (task_of chain.entry.words.now chain.entry.bytes.now).host }
{
    optional_string(chain, table::word(chain.words, HOST))
}
