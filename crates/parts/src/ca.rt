// Rule 9.
ghost use Rattle.std.specs.Prelude.{◌≡◌};
ghost use Rattle.model.specs.Decode.{cert_at};
ghost use Rattle.parts.specs.Ca.{check_ca};

use certs::cert_word;
use certs::row::{BC, CA, KU, KU_BITS};
use model::chain::CertRow;
use table::Lent;

// What this bit adds to the word.
const KEY_CERT_SIGN: u64 = 32;

// Whether a certificate may issue others.
pub fn check_ca(chain: Lent, c: CertRow) -> bool
    ensures { result ≡ check_ca (cert_at chain.entry.words.now chain.entry.bytes.now c.0) }
{
    let ca = (cert_word(chain.words, c, BC) != 0) & (cert_word(chain.words, c, CA) != 0);
    let signs = cert_word(chain.words, c, KU_BITS) / KEY_CERT_SIGN % 2 == 1;
    ca & ((cert_word(chain.words, c, KU) == 0) | signs)
}
