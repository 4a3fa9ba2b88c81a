// Rule 7: the AKI and the SKI of one certificate.
#![tactic(auto)]

ghost use Rattle.std.specs.Prelude.{◌≡◌};
ghost use Rattle.model.specs.Decode.{cert_at};
ghost use Rattle.key_ids.specs.KeyIds.{ids_not_critical, has_key_ids, has_no_parts, check_auth_subject_key_id};

use certs::cert_word;
use certs::row::{
    AIA, AKI, AKI_KEY_ID, ANY_EXTENSIONS, BC, CRITICAL, EKU, KU, NC, POLICIES, SAN, SKI, VERSION,
};
use model::chain::CertRow;
use table::Lent;

fn ids_not_critical(chain: Lent, c: CertRow) -> bool
    ensures { result ≡ ids_not_critical (cert_at chain.entry.words.now chain.entry.bytes.now c.0) }
{
    (cert_word(chain.words, c, AKI) < CRITICAL) & (cert_word(chain.words, c, SKI) < CRITICAL)
}

fn has_key_ids(chain: Lent, root: bool, leaf: bool, c: CertRow) -> bool
    ensures { result ≡ has_key_ids root leaf (cert_at chain.entry.words.now chain.entry.bytes.now c.0) }
{
    let aki = (cert_word(chain.words, c, AKI) != 0) & (cert_word(chain.words, c, AKI_KEY_ID) != 0);
    (root | aki) & (leaf | (cert_word(chain.words, c, SKI) != 0))
}

fn has_no_parts(chain: Lent, c: CertRow) -> bool
    ensures { result ≡ has_no_parts (cert_at chain.entry.words.now chain.entry.bytes.now c.0) }
{
    (cert_word(chain.words, c, ANY_EXTENSIONS) == 0)
        & (cert_word(chain.words, c, AKI) == 0)
        & (cert_word(chain.words, c, SKI) == 0)
        & (cert_word(chain.words, c, EKU) == 0)
        & (cert_word(chain.words, c, BC) == 0)
        & (cert_word(chain.words, c, KU) == 0)
        & (cert_word(chain.words, c, SAN) == 0)
        & (cert_word(chain.words, c, NC) == 0)
        & (cert_word(chain.words, c, POLICIES) == 0)
        & (cert_word(chain.words, c, AIA) == 0)
}

// Whether a certificate names the keys that it should, at the root, at the leaf or between.
pub fn check_auth_subject_key_id(chain: Lent, root: bool, leaf: bool, c: CertRow) -> bool
    ensures { result ≡ check_auth_subject_key_id root leaf (cert_at chain.entry.words.now chain.entry.bytes.now c.0) }
{
    if ids_not_critical(chain, c) {
        let version = cert_word(chain.words, c, VERSION);
        if 2 <= version {
            return has_key_ids(chain, root, leaf, c);
        }
        return has_no_parts(chain, c);
    }
    false
}
