// Rules 17 to 20: what Chrome's calendar and the lists of a policy say of certificates. A module a rule or two.
#![tactic(auto)]

pub mod duration;
pub mod fingerprints;
pub mod symantec;

ghost use Rattle.std.specs.Prelude.{◌≡◌};
ghost use Rattle.model.specs.Decode.{cert_at, list_at};
ghost use Rattle.lists.specs.Listed.{listed};

use certs::row::FINGERPRINT;
use model::chain::CertRow;
use model::policy::ListNo;
use table::Lent;

// Whether a list holds the fingerprint of a certificate.
fn is_listed(chain: Lent, lists: Lent, k: ListNo, c: CertRow) -> bool
    ensures { result ≡ listed (list_at lists.entry.words.now lists.entry.bytes.now k.0) (cert_at chain.entry.words.now chain.entry.bytes.now c.0).fingerprint }
{
    lists::in_list(lists, k, certs::cert_string(chain, c, FINGERPRINT))
}
