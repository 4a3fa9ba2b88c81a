// Rule 11.
ghost use Rattle.std.specs.Prelude.{◌≡◌};
ghost use Rattle.model.specs.Decode.{cert_at};
ghost use Rattle.parts.specs.SanNames.{check_san};

use certs::row::{SAN, SAN_NAMES};
use certs::{cert_range, cert_word};
use model::chain::{CertRow, NAMES};
use table::Lent;

// Whether a SAN that is there has a name.
pub fn check_san(chain: Lent, c: CertRow) -> bool
    ensures { result ≡ check_san (cert_at chain.entry.words.now chain.entry.bytes.now c.0) }
{
    let names = cert_range(chain.words, c, SAN_NAMES, NAMES);
    (cert_word(chain.words, c, SAN) == 0) | (names.from < names.to)
}
