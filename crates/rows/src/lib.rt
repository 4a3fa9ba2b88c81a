// The rows of A, R and U of a chain bundle, field by field. Each reader asks nothing of the bundle.
#![tactic(auto)]

ghost use Rattle.std.specs.Prelude.{◌≡◌};
ghost use Rattle.model.specs.Decode.{oid_at, value_at, rdn_range, usage_word};

use model::chain::{ATTRIBUTES, AttributeNo, RDNS, RdnNo, USAGES, UsageNo, rows_named};
use table::{Lent, Range};

pub fn oid<'b>(chain: Lent<'_, 'b>, a: AttributeNo) -> &'b [u8]
    ensures { result.now ≡ oid_at chain.entry.words.now chain.entry.bytes.now a.0 }
{
    table::string_named(chain, ATTRIBUTES, a.0, 0)
}

pub fn value<'b>(chain: Lent<'_, 'b>, a: AttributeNo) -> &'b [u8]
    ensures { result.now ≡ value_at chain.entry.words.now chain.entry.bytes.now a.0 }
{
    table::string_named(chain, ATTRIBUTES, a.0, 1)
}

// The attributes of an RDN.
pub fn rdn(words: &[u64], n: RdnNo) -> Range
    ensures { result ≡ rdn_range words.now n.0 }
{
    rows_named(words, RDNS, n.0, 0, ATTRIBUTES)
}

pub fn usage(words: &[u64], n: UsageNo) -> u64
    ensures { result ≡ usage_word words.now n.0 }
{
    table::field(words, USAGES, n.0, 0)
}
