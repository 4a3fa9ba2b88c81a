// Rule 3.
ghost use Rattle.std.specs.Prelude.{◌≡◌};
ghost use Rattle.model.specs.Decode.{cert_at};
ghost use Rattle.fields.specs.Signatures.{outer_inner_sig_match};

use certs::cert_string;
use certs::row::{INNER, OUTER};
use model::chain::CertRow;
use table::Lent;

// Whether the signature bytes inside a certificate are those outside.
pub fn outer_inner_sig_match(chain: Lent, c: CertRow) -> bool
    ensures { result ≡ outer_inner_sig_match (cert_at chain.entry.words.now chain.entry.bytes.now c.0) }
{
    text::same(cert_string(chain, c, INNER), cert_string(chain, c, OUTER))
}
