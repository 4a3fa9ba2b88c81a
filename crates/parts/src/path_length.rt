// Rule 10.
ghost use Rattle.std.specs.Prelude.{◌≡◌};
ghost use Rattle.model.specs.Decode.{cert_at};
ghost use Rattle.parts.specs.PathLength.{long_enough, path_length_holds};

use certs::cert_word;
use certs::row::{BC, HAS_LENGTH, LENGTH};
use model::chain::CertRow;
use table::{CertPos, Lent};

// Whether a path length is enough at a position. It is never cast: it may lie below zero.
fn long_enough(i: CertPos, length: i64) -> bool
    ensures { result ≡ long_enough i.0 length }
{
    let at = i.0;
    if at == 0 {
        return 0 <= length;
    }
    let between = (at - 1) as i64;
    (0 <= length) & (between <= length)
}

// Whether the path length of the certificate at a position, if it has one, is enough there.
pub fn path_length_holds(chain: Lent, i: CertPos, c: CertRow) -> bool
    ensures { result ≡ path_length_holds i.0 (cert_at chain.entry.words.now chain.entry.bytes.now c.0) }
{
    if cert_word(chain.words, c, BC) == 0 {
        return true;
    }
    if cert_word(chain.words, c, HAS_LENGTH) == 0 {
        return true;
    }
    long_enough(i, certs::signed(cert_word(chain.words, c, LENGTH)))
}
