// Whether nothing is wrong with a bundle, asked row by row, everything of a row at once. Which word is wrong, where one is, the search says.
#![tactic(auto)]

ghost use Rattle.std.specs.Prelude.{◌≡◌, Bool, true, not, ◌&&◌, List, ℕ, ◌+◌, ◌*◌, ◌≤◌, ◌<◌, leb, length};
ghost use Rattle.laws.specs.Lists.{numbers, all};
ghost use Rattle.table.specs.Table.{count_of, offset_of, strings as stringRows};
ghost use Rattle.model.specs.Sections.{chain_header, attributes as attributeRows, rdns as rdnRows, names as nameRows, usages as usageRows};
ghost use Rattle.sections.specs.Placed.{chain_sections};
ghost use Rattle.row_tests.specs.Wrong.{high_string};
ghost use Rattle.search.specs.declared.Block.{Block};
ghost use Rattle.lines.specs.Tables.{chain_lines};
ghost use Rattle.quick_certs.specs.Asked.{row_fine, rows_fine, lines_of, Lies};
ghost use Rattle.quick.specs.Fine.{all_placed, line_fine, chain_fine};
ghost use Rattle.quick.specs.Asked.{string_line, StringsLie};

use model::chain::{ATTRIBUTES, CERTS, NAMES, RDNS, USAGES};
use row_tests::ends_past;
use sections::{CHAIN_HEADER, is_misplaced};
use table::{Lent, STRINGS, Section, StringNo, word};

// Whether each row of a section passes a test, asked of the word at which it begins.
fn each_row<F: Fn(usize) -> bool>(words: &[u64], s: Section, fits: F) -> bool
    requires lies { Lies words.now s }
    requires asked { (i : ℕ) → i < count_of words.now s → F.pre fits (offset_of words.now s + s.size * i) }
    ensures { (p : ℕ → Bool) → ((q : ℕ) (b : Bool) → F.post fits q b → b ≡ p q) → result ≡ all (λ i. p (offset_of words.now s + s.size * i)) (numbers 0 (count_of words.now s)) }
{
    let at = table::offset(words, s) as usize;
    let size = s.size as usize;
    (0..table::count(words, s) as usize).all(|i| fits(at + size * i))
}

// Whether each string lies in the bytes.
fn strings_fit(chain: Lent) -> bool
    requires { Lies chain.words.now stringRows }
    ensures { result ≡ line_fine chain.entry.words.now chain.entry.bytes.now string_line }
{
    let (words, end) = (chain.words, chain.bytes.len() as u64);
    each_row(words, STRINGS, |q| !ends_past(words[q], words[q + 1], end))
}

// Each RDN: its attributes are a range of A.
fn rdns_fine(words: &[u64]) -> bool
    requires { Lies words.now rdnRows }
    ensures { (b : List ℕ) → result ≡ rows_fine words.now b (lines_of rdnRows.count chain_lines) (Block.All rdnRows) }
{
    let attributes = table::count(words, ATTRIBUTES);
    each_row(
        words,
        RDNS,
        |q| !ends_past(words[q], words[q + 1], attributes),
    )
}

// Each usage is one of eight.
fn usages_fine(words: &[u64]) -> bool
    requires { Lies words.now usageRows }
    ensures { (b : List ℕ) → result ≡ rows_fine words.now b (lines_of usageRows.count chain_lines) (Block.All usageRows) }
{
    each_row(words, USAGES, |q| words[q] <= 7)
}

// A chain bundle whose rows of S end inside the words, and whose strings lie in the bytes; and how many strings there are. Where it is built that is proved, so no method asks for it.
#[derive(Clone, Copy)]
struct Readable<'a> {
    chain: Lent<'a, 'a>,
    strings: u64,
    // Each string may be read where it stands.
    ghost lie: { StringsLie chain.words.now chain.bytes.now },
    // As many as the header says.
    ghost counted: { strings ≡ count_of chain.words.now stringRows },
}

impl Readable<'_> {
    // Whether a string has a byte over 127. It is read where it stands: its row lies in the words, and it in the bytes.
    fn is_high(self, s: StringNo) -> bool
        requires { s.0 < count_of self.chain.words.now stringRows }
        ensures { result ≡ high_string self.entry.chain.words.now self.entry.chain.bytes.now s.0 }
    {
        let Lent { words, bytes } = self.chain;
        let n = s.0;
        let p = (table::offset(words, STRINGS) + STRINGS.size * n) as usize;
        let start = words[p] as usize;
        let end = start + words[p + 1] as usize;
        ascii::has_high(&bytes[start..end])
    }

    // Whether there is such a string, and it has no byte over 127. Inlined, since a call for each string made the whole check a sixth slower.
    #[inline(always)]
    fn is_ascii(self, s: StringNo) -> bool
        ensures { result ≡ (not (leb self.entry.strings s.0) && not (high_string self.entry.chain.words.now self.entry.chain.bytes.now s.0)) }
    {
        if self.strings <= s.0 {
            return false;
        }
        !self.is_high(s)
    }

    // The attribute at q: its OID is a string, and its value one without a byte over 127.
    fn attribute_fits(self, q: usize) -> bool
        requires { q + attributeRows.size ≤ length self.chain.words.now }
        ensures { result ≡ row_fine self.entry.chain.words.now self.entry.chain.bytes.now (lines_of attributeRows.count chain_lines) q }
    {
        let words = self.chain.words;
        (words[q] < self.strings) & self.is_ascii(StringNo(words[q + 1]))
    }

    // Each attribute.
    fn attributes_fine(self) -> bool
        requires { Lies self.chain.words.now attributeRows }
        ensures { result ≡ rows_fine self.entry.chain.words.now self.entry.chain.bytes.now (lines_of attributeRows.count chain_lines) (Block.All attributeRows) }
    {
        each_row(self.chain.words, ATTRIBUTES, |q| self.attribute_fits(q))
    }

    // The name at q: what its kind asks for.
    fn name_fits(self, q: usize, rdns: u64) -> bool
        requires { (q + nameRows.size ≤ length self.chain.words.now) × (rdns ≡ count_of self.chain.words.now rdnRows) }
        ensures { result ≡ row_fine self.entry.chain.words.now self.entry.chain.bytes.now (lines_of nameRows.count chain_lines) q }
    {
        let words = self.chain.words;
        let kind = words[q];
        match kind {
            0 => self.is_ascii(StringNo(words[q + 1])),
            1 => !ends_past(words[q + 1], words[q + 2], rdns),
            2 => words[q + 1] < self.strings,
            _ => kind <= 4,
        }
    }

    // Each name.
    fn names_fine(self) -> bool
        requires { Lies self.chain.words.now nameRows }
        ensures { result ≡ rows_fine self.entry.chain.words.now self.entry.chain.bytes.now (lines_of nameRows.count chain_lines) (Block.All nameRows) }
    {
        let rdns = table::count(self.chain.words, RDNS);
        each_row(self.chain.words, NAMES, |q| self.name_fits(q, rdns))
    }

    // The host, where there is one, and the purpose.
    fn header_fine(self) -> bool
        ensures { result ≡ row_fine self.entry.chain.words.now self.entry.chain.bytes.now (lines_of 0 chain_lines) 0 }
    {
        let host = word(self.chain.words, 13);
        let purpose = word(self.chain.words, 14);
        if host == 0 {
            return purpose == 0;
        }
        self.is_ascii(StringNo(host - 1)) & (purpose == 0)
    }
}

// Whether each section is in its place.
fn chain_placed(words: &[u64]) -> bool
    ensures { result ≡ all_placed chain_header chain_sections words.now }
{
    let sections = [STRINGS, ATTRIBUTES, RDNS, NAMES, USAGES, CERTS];
    sections
        .iter()
        .all(|s| !is_misplaced(words, CHAIN_HEADER, *s))
}

// Whether each row but those of S is right.
fn chain_rows_fine(chain: Lent) -> bool
    requires { (all_placed chain_header chain_sections chain.words.now ≡ true) × (line_fine chain.words.now chain.bytes.now string_line ≡ true) }
    ensures { result ≡ all (line_fine chain.entry.words.now chain.entry.bytes.now) chain_lines }
{
    let strings = table::count(chain.words, STRINGS);
    let readable = Readable { chain, strings };
    readable.attributes_fine()
        & rdns_fine(chain.words)
        & readable.names_fine()
        & usages_fine(chain.words)
        & quick_certs::certs_fine(chain.words)
        & readable.header_fine()
}

// Whether a chain bundle has no fault of refusals 4 to 8.
pub fn chain_fine(chain: Lent) -> bool
    ensures { result ≡ chain_fine chain.entry.words.now chain.entry.bytes.now }
{
    chain_placed(chain.words) && strings_fit(chain) && chain_rows_fine(chain)
}
