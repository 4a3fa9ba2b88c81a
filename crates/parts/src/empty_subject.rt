// Rule 12.
ghost use Rattle.std.specs.Prelude.{◌≡◌};
ghost use Rattle.model.specs.Decode.{cert_at};
ghost use Rattle.parts.specs.EmptySubject.{empty_subject_implies_critical_san};

use certs::row::{CRITICAL, SAN, SUBJECT};
use certs::{cert_range, cert_word};
use model::chain::{CertRow, RDNS};
use table::Lent;

// Whether a certificate has a subject, or else a critical SAN.
pub fn empty_subject_implies_critical_san(chain: Lent, c: CertRow) -> bool
    ensures { result ≡ empty_subject_implies_critical_san (cert_at chain.entry.words.now chain.entry.bytes.now c.0) }
{
    let subject = cert_range(chain.words, c, SUBJECT, RDNS);
    (subject.from < subject.to) | (CRITICAL <= cert_word(chain.words, c, SAN))
}
