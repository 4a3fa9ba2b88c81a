// Rule 20.
ghost use Rattle.std.specs.Prelude.{◌-◌, ◌≡◌};
ghost use Rattle.table.specs.Table.{count_of};
ghost use Rattle.model.specs.Sections.{certs};
ghost use Rattle.model.specs.Decode.{chain_of, lists_of};
ghost use Rattle.roots.specs.Symantec.{symantec_holds};

use model::chain::{CERTS, CertRow};
use table::Lent;

// The row of the last certificate.
fn root_row(words: &[u64]) -> CertRow
    ensures { result.0 ≡ count_of words.now certs - 1 }
{
    CertRow(table::count(words, CERTS).saturating_sub(1))
}

// Whether a root of Symantec, if it is one, has an exception between itself and the leaf.
pub fn symantec_holds(chain: Lent, lists: Lent) -> bool
    ensures { result ≡ symantec_holds (lists_of lists.entry.words.now lists.entry.bytes.now) (chain_of chain.entry.words.now chain.entry.bytes.now) }
{
    let root = root_row(chain.words);
    if crate::is_listed(chain, lists, lists::SYMANTEC_ROOTS, root) {
        return (1..root.0).any(|i| crate::is_listed(
            chain,
            lists,
            lists::SYMANTEC_EXCEPTIONS,
            CertRow(i),
        ));
    }
    true
}
