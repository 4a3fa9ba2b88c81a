// Rule 13: whether one certificate was issued by another.
#![tactic(auto)]

ghost use Rattle.std.specs.Prelude.{◌≡◌};
ghost use Rattle.model.specs.Decode.{cert_at};
ghost use Rattle.names.specs.Names.{same_dn};
ghost use Rattle.names.specs.declared.Values.TheVariants.{Normalised};
ghost use Rattle.issuing.specs.Issuing.{likely_issued};

use certs::cert_range;
use certs::row::{ISSUER, SUBJECT};
use model::chain::{CertRow, RDNS};
use names::Values;
use table::Lent;

// Whether the issuer that the subject names is the issuer's own subject.
fn same_names(chain: Lent, issuer: CertRow, subject: CertRow) -> bool
    ensures { result ≡ same_dn Normalised (cert_at chain.entry.words.now chain.entry.bytes.now issuer.0).subject (cert_at chain.entry.words.now chain.entry.bytes.now subject.0).issuer }
{
    names::same_dn(
        chain,
        Values::Normalised,
        cert_range(chain.words, issuer, SUBJECT, RDNS),
        cert_range(chain.words, subject, ISSUER, RDNS),
    )
}

// Whether the subject was issued by the issuer, as far as names and key ids tell.
pub fn likely_issued(chain: Lent, issuer: CertRow, subject: CertRow) -> bool
    ensures { result ≡ likely_issued (cert_at chain.entry.words.now chain.entry.bytes.now issuer.0) (cert_at chain.entry.words.now chain.entry.bytes.now subject.0) }
{
    if same_names(chain, issuer, subject) {
        return auth_key_id::check_auth_key_id(chain, issuer, subject);
    }
    false
}
