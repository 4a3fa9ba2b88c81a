// Rule 16.
ghost use Rattle.std.specs.Prelude.{◌≡◌};
ghost use Rattle.laws.specs.Lists.{all};
ghost use Rattle.model.specs.Decode.{general_at, generals_in, cert_at};
ghost use Rattle.constrained_c.specs.Rule16.{valid_if_dns, valid_dns_name_constraints};

use constraints::NameConstraints;
use model::chain::{CertRow, NameNo};
use sans::Kind;
use table::{Lent, Range};

// Whether a name, if it is a DNS name, is one that Chrome takes as a constraint.
fn valid_if_dns(chain: Lent, n: NameNo) -> bool
    ensures { result ≡ valid_if_dns (general_at chain.entry.words.now chain.entry.bytes.now n.0) }
{
    if sans::is_kind(chain, n, Kind::Dns) {
        return patterns::names::valid_name_constraint(general_names::name_text(chain, n));
    }
    true
}

// Whether each DNS name of a range is such a constraint.
fn all_valid(chain: Lent, r: Range) -> bool
    ensures { result ≡ all valid_if_dns (generals_in chain.entry.words.now chain.entry.bytes.now r) }
{
    (r.from..r.to).all(|i| valid_if_dns(chain, NameNo(i)))
}

// Whether each DNS constraint of a certificate, permitted or excluded, is such a constraint.
pub fn valid_dns_name_constraints(chain: Lent, c: CertRow) -> bool
    ensures { result ≡ valid_dns_name_constraints (cert_at chain.entry.words.now chain.entry.bytes.now c.0) }
{
    match NameConstraints::of(chain.words, c) {
        None => true,
        Some(nc) => all_valid(chain, nc.permitted) && all_valid(chain, nc.excluded),
    }
}
