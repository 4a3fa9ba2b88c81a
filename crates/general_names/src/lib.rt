// The rows of G of a chain bundle, field by field. Each reader asks nothing of the bundle.
#![tactic(auto)]

ghost use Rattle.std.specs.Prelude.{◌≡◌};
ghost use Rattle.model.specs.Decode.{kind_at, name_text, name_range};

use model::chain::{NAMES, NameNo, RDNS, rows_named};
use table::{Lent, Range};

// The kind as its word, which may be none of the five: `kind_at` promises the word.
pub fn kind(words: &[u64], n: NameNo) -> u64
    ensures { result ≡ kind_at words.now n.0 }
{
    table::field(words, NAMES, n.0, 0)
}

// A name's x as a string.
pub fn name_text<'b>(chain: Lent<'_, 'b>, n: NameNo) -> &'b [u8]
    ensures { result.now ≡ name_text chain.entry.words.now chain.entry.bytes.now n.0 }
{
    table::string_named(chain, NAMES, n.0, 1)
}

// A name's x and y as a range of RDNs.
pub fn name_range(words: &[u64], n: NameNo) -> Range
    ensures { result ≡ name_range words.now n.0 }
{
    rows_named(words, NAMES, n.0, 1, RDNS)
}
