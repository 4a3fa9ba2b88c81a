// The words of a certificate, a row of C. Each reader asks nothing of the bundle.
#![tactic(auto)]

pub mod row;

ghost use Rattle.std.specs.Prelude.{◌≡◌};
ghost use Rattle.table.specs.Table.{string_of};
ghost use Rattle.model.specs.Decode.{cert_word, cert_range, signed_of};

use model::chain::{CERTS, CertRow, rows_named};
use table::{Lent, Range, Section};

// Word j of a certificate.
pub fn cert_word(words: &[u64], c: CertRow, j: u64) -> u64
    ensures { result ≡ cert_word words.now c.0 j }
{
    table::field(words, CERTS, c.0, j)
}

// Words j and j + 1 of a certificate as a range of a section.
pub fn cert_range(words: &[u64], c: CertRow, j: u32, s: Section) -> Range
    ensures { result ≡ cert_range words.now c.0 j s }
{
    rows_named(words, CERTS, c.0, j as u64, s)
}

// The string that word j of a certificate names.
pub fn cert_string<'b>(chain: Lent<'_, 'b>, c: CertRow, j: u64) -> &'b [u8]
    ensures { result.now ≡ string_of chain.entry.words.now chain.entry.bytes.now (cert_word chain.entry.words.now c.0 j) }
{
    table::string_named(chain, CERTS, c.0, j)
}

// The number that a word is in two's complement, without a cast that could lose a bit.
pub fn signed(word: u64) -> i64
    ensures { result ≡ signed_of word }
{
    if word < 9223372036854775808 {
        return word as i64;
    }
    -1 - (18446744073709551615 - word) as i64
}
