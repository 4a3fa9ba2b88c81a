// Rule 4.
ghost use Rattle.std.specs.Prelude.{◌≡◌};
ghost use Rattle.model.specs.Decode.{cert_at};
ghost use Rattle.fields.specs.Uids.{issuer_subject_uid_version};

use certs::cert_word;
use certs::row::{ISSUER_UID, SUBJECT_UID, VERSION};
use model::chain::CertRow;
use table::Lent;

// Whether a certificate with a UID has a version that allows one.
pub fn issuer_subject_uid_version(chain: Lent, c: CertRow) -> bool
    ensures { result ≡ issuer_subject_uid_version (cert_at chain.entry.words.now chain.entry.bytes.now c.0) }
{
    let version = cert_word(chain.words, c, VERSION);
    let none = (cert_word(chain.words, c, ISSUER_UID) == 0)
        & (cert_word(chain.words, c, SUBJECT_UID) == 0);
    none | (version == 2) | (version == 3)
}
