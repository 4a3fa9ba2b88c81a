// Rule 17.
ghost use Rattle.std.specs.Prelude.{◌≡◌};
ghost use Rattle.model.specs.Decode.{cert_at, lists_of};
ghost use Rattle.roots.specs.Duration.{leaf_duration_valid, duration_holds};

use calendar::Calendar;
use certs::cert_word;
use certs::row::{NOT_AFTER, NOT_BEFORE};
use model::chain::CertRow;
use table::Lent;

// Whether the calendar allows the leaf's time.
fn leaf_duration_valid(chain: Lent, leaf: CertRow) -> bool
    ensures { result ≡ leaf_duration_valid (cert_at chain.entry.words.now chain.entry.bytes.now leaf.0) }
{
    Calendar::span_valid(
        cert_word(chain.words, leaf, NOT_BEFORE),
        cert_word(chain.words, leaf, NOT_AFTER),
    )
}

// Whether the leaf lasts no longer than it may under that root. The list is searched only where the calendar forbids the leaf.
pub fn duration_holds(chain: Lent, lists: Lent, leaf: CertRow, root: CertRow) -> bool
    ensures { result ≡ duration_holds (lists_of lists.entry.words.now lists.entry.bytes.now) (cert_at chain.entry.words.now chain.entry.bytes.now leaf.0) (cert_at chain.entry.words.now chain.entry.bytes.now root.0) }
{
    if leaf_duration_valid(chain, leaf) {
        return true;
    }
    !crate::is_listed(chain, lists, lists::KNOWN_ROOTS, root)
}
