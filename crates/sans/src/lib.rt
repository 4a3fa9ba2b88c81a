// What a certificate is called: names by their kind, the DNS names of its SAN, the common names of its subject.
#![tactic(auto)]

ghost use Rattle.std.specs.Prelude.{◌≡◌};
ghost use Rattle.laws.specs.Lists.{any};
ghost use Rattle.model.specs.Sections.{names};
ghost use Rattle.model.specs.Decode.{attribute_at, general_at, generals_in, cert_word, cert_range, cert_at};
ghost use Rattle.model.specs.Shown.{ShowsPart};
ghost use Rattle.sans.specs.Kinds.{Decodes};
ghost use Rattle.sans.specs.Sans.{number_of, is_kind, check_san_has_dns, is_common};

use certs::row::{SAN, SAN_NAMES};
use model::chain::{AttributeNo, CertRow, NAMES, NameNo};
use table::{Lent, Range};

// The word of a name that holds its kind.
const KIND: u64 = 0;

// The kinds of names that constraints can speak of.
#[derive(Clone, Copy)]
pub enum Kind {
    Dns,
    Directory,
    Ip,
}

// The word of a kind.
impl From<Kind> for u64 {
    ghost from_gives = { λ k n. n ≡ number_of k };

    fn from(k: Kind) -> u64 {
        match k {
            Kind::Dns => 0,
            Kind::Directory => 1,
            Kind::Ip => 2,
        }
    }
}

// A word that is none of these kinds.
#[derive(Clone, Copy)]
pub struct OtherKind(pub u64);

// The kind of a word.
impl TryFrom<u64> for Kind {
    type Error = OtherKind;

    ghost try_from_gives = { Decodes };

    fn try_from(word: u64) -> Result<Self, OtherKind> {
        match word {
            0 => Ok(Kind::Dns),
            1 => Ok(Kind::Directory),
            2 => Ok(Kind::Ip),
            _ => Err(OtherKind(word)),
        }
    }
}

// Whether a name is of a kind.
pub fn is_kind(chain: Lent, n: NameNo, k: Kind) -> bool
    ensures { result ≡ is_kind k (general_at chain.entry.words.now chain.entry.bytes.now n.0) }
{
    general_names::kind(chain.words, n) == u64::from(k)
}

// Whether some name of a range is of a kind. The rows are read through a view.
pub fn has_kind(chain: Lent, r: Range, k: Kind) -> bool
    ensures { result ≡ any (is_kind k) (generals_in chain.entry.words.now chain.entry.bytes.now r) }
{
    view::some_word(chain.words, NAMES, r, KIND, u64::from(k))
}

// The names of a certificate's SAN, if it has one.
pub fn san(words: &[u64], c: CertRow) -> Option<Range>
    ensures { ShowsPart result (cert_word words.now c.0 30) (cert_range words.now c.0 31 names) }
{
    if certs::cert_word(words, c, SAN) == 0 {
        return None;
    }
    Some(certs::cert_range(words, c, SAN_NAMES, NAMES))
}

// Whether the SAN of a certificate has a DNS name.
pub fn check_san_has_dns(chain: Lent, c: CertRow) -> bool
    ensures { result ≡ check_san_has_dns (cert_at chain.entry.words.now chain.entry.bytes.now c.0) }
{
    match san(chain.words, c) {
        None => false,
        Some(names) => has_kind(chain, names, Kind::Dns),
    }
}

// Whether an attribute is a common name.
pub fn is_common(chain: Lent, a: AttributeNo) -> bool
    ensures { result ≡ is_common (attribute_at chain.entry.words.now chain.entry.bytes.now a.0) }
{
    text::same(rows::oid(chain, a), b"2.5.4.3")
}
