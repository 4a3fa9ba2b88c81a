// Rule 2.
ghost use Rattle.std.specs.Prelude.{◌≡◌};
ghost use Rattle.model.specs.Decode.{cert_at, task_of};
ghost use Rattle.fields.specs.Validity.{check_cert_time};

use certs::cert_word;
use certs::row::{NOT_AFTER, NOT_BEFORE};
use model::chain::{CertRow, NOW};
use table::Lent;

// Whether a certificate is in date.
pub fn check_cert_time(chain: Lent, c: CertRow) -> bool
    ensures { result ≡ check_cert_time (task_of chain.entry.words.now chain.entry.bytes.now) (cert_at chain.entry.words.now chain.entry.bytes.now c.0) }
{
    let now = table::word(chain.words, NOW);
    (cert_word(chain.words, c, NOT_BEFORE) <= now) & (now <= cert_word(chain.words, c, NOT_AFTER))
}
