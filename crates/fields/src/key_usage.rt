// Rule 5.
ghost use Rattle.std.specs.Prelude.{◌≡◌};
ghost use Rattle.model.specs.Decode.{cert_at};
ghost use Rattle.fields.specs.KeyUsage.{key_usage_non_empty};

use certs::cert_word;
use certs::row::{KU, KU_BITS};
use model::chain::CertRow;
use table::Lent;

// Two to the number of bits that a KU has.
const ALL_BITS: u64 = 512;

// Whether a KU that is there has a bit.
pub fn key_usage_non_empty(chain: Lent, c: CertRow) -> bool
    ensures { result ≡ key_usage_non_empty (cert_at chain.entry.words.now chain.entry.bytes.now c.0) }
{
    if cert_word(chain.words, c, KU) == 0 {
        return true;
    }
    cert_word(chain.words, c, KU_BITS) % ALL_BITS != 0
}
