// Rule 14 of Chrome. What both policies ask stands in `constraints`.
ghost use Rattle.std.specs.Prelude.{◌≡◌};
ghost use Rattle.model.specs.Decode.{cert_at};
ghost use Rattle.constrained_c.specs.Rule14.{check_name_constraints};

use constraints::NameConstraints;
use covering_dns::Covering;
use model::chain::CertRow;
use table::Lent;

// Whether certificate j keeps the constraints of certificate i, if it has some.
pub fn check_name_constraints(chain: Lent, i: CertRow, j: CertRow) -> bool
    ensures { result ≡ check_name_constraints (cert_at chain.entry.words.now chain.entry.bytes.now i.0) (cert_at chain.entry.words.now chain.entry.bytes.now j.0) }
{
    match NameConstraints::of(chain.words, i) {
        None => true,
        Some(nc) => {
            constraints::check_subject(chain, nc, j)
                && constraints::check_san_constraints(chain, nc, Covering::Cleaned, j)
        }
    }
}
