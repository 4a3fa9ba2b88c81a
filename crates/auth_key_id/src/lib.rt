// What the AKI of a certificate says of the one that issued it (half of rule 13).
#![tactic(auto)]

ghost use Rattle.std.specs.Prelude.{◌≡◌};
ghost use Rattle.model.specs.Decode.{aki_at, cert_at};
ghost use Rattle.auth_key_id.specs.AuthKeyId.{key_id_is, same_key_id, same_serial, check_auth_key_id};

use certs::row::{AKI, AKI_KEY_ID, AKI_SERIAL, SERIAL, SKI, SKI_KEY_ID};
use certs::{cert_string, cert_word};
use model::chain::{CertRow, optional_string};
use table::Lent;

// Whether the issuer's SKI, if it has one, is the key id.
fn key_id_is(chain: Lent, issuer: CertRow, k: &[u8]) -> bool
    ensures { result ≡ key_id_is (cert_at chain.entry.words.now chain.entry.bytes.now issuer.0) k.now }
{
    if cert_word(chain.words, issuer, SKI) == 0 {
        return true;
    }
    text::same(cert_string(chain, issuer, SKI_KEY_ID), k)
}

// Whether the key id in the subject's AKI, if there is one, is the issuer's.
fn same_key_id(chain: Lent, issuer: CertRow, subject: CertRow) -> bool
    ensures { result ≡ same_key_id (cert_at chain.entry.words.now chain.entry.bytes.now issuer.0) (aki_at chain.entry.words.now chain.entry.bytes.now subject.0) }
{
    match optional_string(chain, cert_word(chain.words, subject, AKI_KEY_ID)) {
        None => true,
        Some(k) => key_id_is(chain, issuer, k),
    }
}

// Whether the serial in the subject's AKI, if there is one, is the issuer's.
fn same_serial(chain: Lent, issuer: CertRow, subject: CertRow) -> bool
    ensures { result ≡ same_serial (cert_at chain.entry.words.now chain.entry.bytes.now issuer.0) (aki_at chain.entry.words.now chain.entry.bytes.now subject.0) }
{
    match optional_string(chain, cert_word(chain.words, subject, AKI_SERIAL)) {
        None => true,
        Some(k) => text::same(cert_string(chain, issuer, SERIAL), k),
    }
}

// Whether the subject's AKI, if it has one, names the issuer's key and serial.
pub fn check_auth_key_id(chain: Lent, issuer: CertRow, subject: CertRow) -> bool
    ensures { result ≡ check_auth_key_id (cert_at chain.entry.words.now chain.entry.bytes.now issuer.0) (cert_at chain.entry.words.now chain.entry.bytes.now subject.0) }
{
    if cert_word(chain.words, subject, AKI) == 0 {
        return true;
    }
    same_key_id(chain, issuer, subject) & same_serial(chain, issuer, subject)
}
