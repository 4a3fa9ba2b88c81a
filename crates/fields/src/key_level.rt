// Rule 6.
ghost use Rattle.std.specs.Prelude.{◌≡◌};
ghost use Rattle.model.specs.Decode.{cert_at, cert_word, key_of};
ghost use Rattle.fields.specs.Keys.{decoded};
ghost use Rattle.fields.specs.KeyLevel.{check_cert_key_level};

use certs::cert_word;
use certs::row::{KEY, RSA_BITS};
use model::chain::CertRow;
use table::Lent;

// The kind of a certificate's key, an RSA key with its bits.
#[derive(Clone, Copy)]
enum Key {
    Rsa(u64),
    Dsa,
    Other,
}

// The key of a certificate.
fn key_of(words: &[u64], c: CertRow) -> Key
    ensures { decoded result ≡ key_of (cert_word words.now c.0 11) (cert_word words.now c.0 12) }
{
    match cert_word(words, c, KEY) {
        0 => Key::Rsa(cert_word(words, c, RSA_BITS)),
        1 => Key::Dsa,
        _ => Key::Other,
    }
}

// Whether a key is strong enough: RSA needs `least` bits, and `dsa` says whether DSA is allowed.
pub fn check_cert_key_level(chain: Lent, least: u64, dsa: bool, c: CertRow) -> bool
    ensures { result ≡ check_cert_key_level least dsa (cert_at chain.entry.words.now chain.entry.bytes.now c.0) }
{
    match key_of(chain.words, c) {
        Key::Rsa(bits) => least <= bits,
        Key::Dsa => dsa,
        Key::Other => true,
    }
}
