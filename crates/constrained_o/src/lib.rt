// Rule 14 of OpenSSL.
#![tactic(auto)]

ghost use Rattle.std.specs.Prelude.{◌≡◌, not, ◌||◌};
ghost use Rattle.laws.specs.Lists.{all};
ghost use Rattle.model.specs.Decode.{attribute_at, rdn_at, name_in, generals_in, cert_at};
ghost use Rattle.names.specs.Names.{rdn_in};
ghost use Rattle.sans.specs.Sans.{check_san_has_dns, if_common, each_common};
ghost use Rattle.covering_dns.specs.declared.Covering.TheVariants.{Lowered};
ghost use Rattle.constraints.specs.Keeps.{self_issued, text_passes, check_common_name_constraints, check_name_constraints_helper};
ghost use Rattle.constrained_o.specs.Rule14.{check_name_constraints};

use certs::row::{ISSUER, SUBJECT};
use constraints::NameConstraints;
use covering_dns::Covering;
use model::chain::{AttributeNo, CertRow, RDNS, RdnNo};
use names::Values;
use table::{Lent, Range};

// Whether a certificate's subject and issuer are the same.
fn self_issued(chain: Lent, c: CertRow) -> bool
    ensures { result ≡ self_issued (cert_at chain.entry.words.now chain.entry.bytes.now c.0) }
{
    let subject = certs::cert_range(chain.words, c, SUBJECT, RDNS);
    let issuer = certs::cert_range(chain.words, c, ISSUER, RDNS);
    names::same_dn(chain, Values::Normalised, subject, issuer)
}

// Whether an attribute is no common name, or passes as a DNS name.
fn common_passes(chain: Lent, nc: NameConstraints, a: AttributeNo) -> bool
    ensures { result ≡ if_common (text_passes Lowered (generals_in chain.entry.words.now chain.entry.bytes.now nc.permitted) (generals_in chain.entry.words.now chain.entry.bytes.now nc.excluded)) (attribute_at chain.entry.words.now chain.entry.bytes.now a.0) }
{
    if sans::is_common(chain, a) {
        return constraints::check_dns_name_constraints(
            chain,
            nc,
            Covering::Lowered,
            rows::value(chain, a),
        );
    }
    true
}

// Whether each common name of an RDN, as a range of attributes, passes.
fn attributes_pass(chain: Lent, nc: NameConstraints, r: Range) -> bool
    ensures { result ≡ all (if_common (text_passes Lowered (generals_in chain.entry.words.now chain.entry.bytes.now nc.permitted) (generals_in chain.entry.words.now chain.entry.bytes.now nc.excluded))) (rdn_in chain.entry.words.now chain.entry.bytes.now r) }
{
    (r.from..r.to).all(|i| common_passes(chain, nc, AttributeNo(i)))
}

fn rdn_passes(chain: Lent, nc: NameConstraints, n: RdnNo) -> bool
    ensures { result ≡ all (if_common (text_passes Lowered (generals_in chain.entry.words.now chain.entry.bytes.now nc.permitted) (generals_in chain.entry.words.now chain.entry.bytes.now nc.excluded))) (rdn_at chain.entry.words.now chain.entry.bytes.now n.0) }
{
    attributes_pass(chain, nc, rows::rdn(chain.words, n))
}

// Whether each common name of a distinguished name, as a range of RDNs, passes.
fn commons_pass(chain: Lent, nc: NameConstraints, name: Range) -> bool
    ensures { result ≡ each_common (text_passes Lowered (generals_in chain.entry.words.now chain.entry.bytes.now nc.permitted) (generals_in chain.entry.words.now chain.entry.bytes.now nc.excluded)) (name_in chain.entry.words.now chain.entry.bytes.now name) }
{
    (name.from..name.to).all(|i| rdn_passes(chain, nc, RdnNo(i)))
}

// Whether each common name of a certificate's subject passes.
fn check_common_name_constraints(chain: Lent, nc: NameConstraints, c: CertRow) -> bool
    ensures { result ≡ check_common_name_constraints Lowered (generals_in chain.entry.words.now chain.entry.bytes.now nc.permitted) (generals_in chain.entry.words.now chain.entry.bytes.now nc.excluded) (cert_at chain.entry.words.now chain.entry.bytes.now c.0) }
{
    commons_pass(chain, nc, certs::cert_range(chain.words, c, SUBJECT, RDNS))
}

// The leaf's common names are asked where its SAN has no DNS name.
fn leaf_passes(chain: Lent, nc: NameConstraints, c: CertRow, leaf: bool) -> bool
    ensures { result ≡ (not leaf || (check_san_has_dns (cert_at chain.entry.words.now chain.entry.bytes.now c.0) || check_common_name_constraints Lowered (generals_in chain.entry.words.now chain.entry.bytes.now nc.permitted) (generals_in chain.entry.words.now chain.entry.bytes.now nc.excluded) (cert_at chain.entry.words.now chain.entry.bytes.now c.0))) }
{
    if !leaf {
        return true;
    }
    if sans::check_san_has_dns(chain, c) {
        return true;
    }
    check_common_name_constraints(chain, nc, c)
}

// Whether a certificate's subject, SAN and common names pass.
fn check_name_constraints_helper(chain: Lent, nc: NameConstraints, c: CertRow, leaf: bool) -> bool
    ensures { result ≡ check_name_constraints_helper Lowered (generals_in chain.entry.words.now chain.entry.bytes.now nc.permitted) (generals_in chain.entry.words.now chain.entry.bytes.now nc.excluded) leaf (cert_at chain.entry.words.now chain.entry.bytes.now c.0) }
{
    if !constraints::check_subject(chain, nc, c) {
        return false;
    }
    if !constraints::check_san_constraints(chain, nc, Covering::Lowered, c) {
        return false;
    }
    leaf_passes(chain, nc, c, leaf)
}

// Whether certificate j keeps the constraints of certificate i, if it has some.
pub fn check_name_constraints(chain: Lent, i: CertRow, j: CertRow, leaf: bool) -> bool
    ensures { result ≡ check_name_constraints leaf (cert_at chain.entry.words.now chain.entry.bytes.now i.0) (cert_at chain.entry.words.now chain.entry.bytes.now j.0) }
{
    match NameConstraints::of(chain.words, i) {
        None => true,
        Some(nc) => self_issued(chain, j) || check_name_constraints_helper(chain, nc, j, leaf),
    }
}
