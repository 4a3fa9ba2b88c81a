// Whether the rows of C are right, asked row by row, everything of a certificate at once.
#![tactic(auto)]

ghost use Rattle.std.specs.Prelude.{◌≡◌, not, ◌&&◌, List, ℕ, ◌+◌, ◌*◌, ◌≤◌, ◌<◌, ltb, length, take, drop};
ghost use Rattle.laws.specs.Lists.{numbers, all};
ghost use Rattle.table.specs.Table.{word as word_of, count_of, strings as stringRows};
ghost use Rattle.model.specs.Sections.{rdns as rdnRows, names as nameRows, usages as usageRows, certs as certRows};
ghost use Rattle.row_tests.specs.Wrong.{there, some_part, extensions_wrong};
ghost use Rattle.lines.specs.Tables.{cert_strings_out, cert_ranges_out, codes_over, marks_over, chain_lines};
ghost use Rattle.quick_certs.specs.Asked.{row_fine, lines_of, certs_fine};

use model::chain::{CERTS, NAMES, RDNS, USAGES};
use row_tests::ends_past;
use sections::{CHAIN_HEADER, is_misplaced};
use table::STRINGS;

// The words, and how many rows the sections have that a certificate points into.
#[derive(Clone, Copy)]
struct Counts<'a> {
    words: &'a [u64],
    strings: u64,
    rdns: u64,
    usages: u64,
    names: u64,
    // As many as the header says.
    ghost counted: { (strings ≡ count_of words.now stringRows) × (rdns ≡ count_of words.now rdnRows) × (usages ≡ count_of words.now usageRows) × (names ≡ count_of words.now nameRows) },
}

// The certificate whose row begins at q. Where it is built, the row is proved to lie in the words, so no method asks for that.
#[derive(Clone, Copy)]
struct CertAt<'a> {
    counts: Counts<'a>,
    q: usize,
    // The row ends inside the words.
    ghost lies: { q + certRows.size ≤ length counts.words.now },
}

// Words p and p + 1, first and count, are a range of so many rows.
fn range_fits(words: &[u64], p: usize, count: u64) -> bool
    requires { p + 1 < length words.now }
    ensures { result ≡ not (ltb count (word_of words.now p + word_of words.now (p + 1))) }
{
    !ends_past(words[p], words[p + 1], count)
}

// The same where the part is there that the word m marks.
fn part_range_fits(words: &[u64], m: usize, p: usize, count: u64) -> bool
    requires { (m < length words.now) × (p + 1 < length words.now) }
    ensures { result ≡ not (there words.now m && ltb count (word_of words.now p + word_of words.now (p + 1))) }
{
    (words[m] == 0) | range_fits(words, p, count)
}

impl CertAt<'_> {
    // The strings of the certificate at q: four numbers, and two that may be absent.
    fn strings_fit(self) -> bool
        ensures { (b : List ℕ) → result ≡ row_fine self.entry.counts.words.now b (take 6 cert_strings_out) self.entry.q }
    {
        let (words, q, n) = (self.counts.words, self.q, self.counts.strings);
        (words[q] < n)
            & (words[q + 2] < n)
            & (words[q + 3] < n)
            & (words[q + 4] < n)
            & (words[q + 13] <= n)
            & (words[q + 14] <= n)
    }

    // The strings of AKI and SKI, where the part is there.
    fn key_ids_fit(self) -> bool
        ensures { (b : List ℕ) → result ≡ row_fine self.entry.counts.words.now b (drop 6 cert_strings_out) self.entry.q }
    {
        let (words, q, n) = (self.counts.words, self.q, self.counts.strings);
        let aki = words[q + 15];
        ((aki == 0) | (words[q + 16] <= n))
            & ((aki == 0) | (words[q + 17] <= n))
            & ((aki == 0) | (words[q + 18] <= n))
            & ((words[q + 19] == 0) | (words[q + 20] < n))
    }

    // The ranges of the certificate at q.
    fn ranges_fit(self) -> bool
        ensures { (b : List ℕ) → result ≡ row_fine self.entry.counts.words.now b cert_ranges_out self.entry.q }
    {
        let k = self.counts;
        let (words, q) = (k.words, self.q);
        range_fits(words, q + 7, k.rdns)
            & range_fits(words, q + 9, k.rdns)
            & part_range_fits(words, q + 21, q + 22, k.usages)
            & part_range_fits(words, q + 30, q + 31, k.names)
            & part_range_fits(words, q + 33, q + 34, k.names)
            & part_range_fits(words, q + 33, q + 36, k.names)
    }

    // Whether the certificate at q has one of the nine parts. Not row_tests' own, which has to test each word's place: here the row lies in the words.
    fn some_part(self) -> bool
        ensures { result ≡ some_part self.entry.counts.words.now self.entry.q }
    {
        let (words, q) = (self.counts.words, self.q);
        (words[q + 15] != 0)
            | (words[q + 19] != 0)
            | (words[q + 21] != 0)
            | (words[q + 24] != 0)
            | (words[q + 28] != 0)
            | (words[q + 30] != 0)
            | (words[q + 33] != 0)
            | (words[q + 38] != 0)
            | (words[q + 39] != 0)
    }

    // Word 40 of the certificate at q: 1, or 0 without a part.
    fn extensions_fit(self) -> bool
        ensures { result ≡ not (extensions_wrong self.entry.counts.words.now self.entry.q) }
    {
        let (words, q) = (self.counts.words, self.q);
        let any = words[q + 40];
        (any <= 1) & ((any != 0) | !self.some_part())
    }

    // The codes of the certificate at q, those of BC and KU where the part is there.
    fn codes_fit(self) -> bool
        ensures { (b : List ℕ) → result ≡ row_fine self.entry.counts.words.now b (lines_of certRows.count codes_over) self.entry.q }
    {
        let (words, q) = (self.counts.words, self.q);
        let bc = words[q + 24];
        (words[q + 1] <= 4294967295)
            & (words[q + 11] <= 2)
            & ((bc == 0) | (words[q + 25] <= 1))
            & ((bc == 0) | (words[q + 26] <= 1))
            & ((words[q + 28] == 0) | (words[q + 29] <= 511))
            & self.extensions_fit()
    }

    // The marks of the nine parts of the certificate at q.
    fn marks_fit(self) -> bool
        ensures { (b : List ℕ) → result ≡ row_fine self.entry.counts.words.now b marks_over self.entry.q }
    {
        let (words, q) = (self.counts.words, self.q);
        (words[q + 15] <= 3)
            & (words[q + 19] <= 3)
            & (words[q + 21] <= 3)
            & (words[q + 24] <= 3)
            & (words[q + 28] <= 3)
            & (words[q + 30] <= 3)
            & (words[q + 33] <= 3)
            & (words[q + 38] <= 3)
            & (words[q + 39] <= 3)
    }
}

// Everything of the certificate at q.
fn cert_fits(counts: Counts, q: usize) -> bool
    requires { q + certRows.size ≤ length counts.words.now }
    ensures { (b : List ℕ) → result ≡ row_fine counts.entry.words.now b (lines_of certRows.count chain_lines) q }
{
    let cert = CertAt { counts, q };
    cert.strings_fit()
        & cert.key_ids_fit()
        & cert.ranges_fit()
        & cert.codes_fit()
        & cert.marks_fit()
}

// Each of n certificates, the first of which begins at a word.
fn certs_fit(counts: Counts, at: usize, n: usize) -> bool
    requires { at + certRows.size * n ≤ length counts.words.now }
    ensures { (b : List ℕ) → result ≡ all (λ i. row_fine counts.entry.words.now b (lines_of certRows.count chain_lines) (at + certRows.size * i)) (numbers 0 n) }
{
    (0..n).all(|i| cert_fits(counts, at + CERTS.size as usize * i))
}

// Whether C is in its place, and each certificate's row right.
pub fn certs_fine(words: &[u64]) -> bool
    ensures { (b : List ℕ) → result ≡ certs_fine words.now b }
{
    if is_misplaced(words, CHAIN_HEADER, CERTS) {
        return false;
    }
    let counts = Counts {
        words,
        strings: table::count(words, STRINGS),
        rdns: table::count(words, RDNS),
        usages: table::count(words, USAGES),
        names: table::count(words, NAMES),
    };
    certs_fit(
        counts,
        table::offset(words, CERTS) as usize,
        table::count(words, CERTS) as usize,
    )
}
