// What name constraints ask of one name, of a subject and of a SAN, for both policies.
#![tactic(auto)]

ghost use Rattle.std.specs.Prelude.{◌≡◌, Bool};
ghost use Rattle.laws.specs.Lists.{any, all};
ghost use Rattle.laws.specs.Optional.{if_there};
ghost use Rattle.text.specs.Texts.{lowered};
ghost use Rattle.table.specs.declared.Range.{Range};
ghost use Rattle.model.specs.Model.{GeneralName};
ghost use Rattle.model.specs.Decode.{cert_word, name_in, general_at, generals_in, cert_at};
ghost use Rattle.model.specs.Shown.{ShowsPart};
ghost use Rattle.constraints.specs.Ranges.{constraints_of};
ghost use Rattle.constraints.specs.Match.{allowed, check_dns_name_constraints, check_directory_name_constraints, check_ip_addr_name_constraints, asked_name, nc_match};
ghost use Rattle.constraints.specs.Keeps.{check_subject, check_san_constraints};

use certs::row::{EXCLUDED, NC, PERMITTED, SUBJECT};
use covering_dns::Covering;
use model::chain::{CertRow, NAMES, NameNo, RDNS};
use sans::Kind;
use table::{Lent, Range};

// The kind of names that no constraints allow.
const OTHER: u64 = 3;

// The names that a certificate permits below itself, and those that it excludes.
#[derive(Clone, Copy)]
pub struct NameConstraints {
    pub permitted: Range,
    pub excluded: Range,
}

impl NameConstraints {
    // The constraints of a certificate, if it has some.
    pub fn of(words: &[u64], c: CertRow) -> Option<Self>
        ensures { ShowsPart result (cert_word words.now c.0 33) (constraints_of words.now c.0) }
    {
        if certs::cert_word(words, c, NC) == 0 {
            return None;
        }
        Some(NameConstraints {
            permitted: certs::cert_range(words, c, PERMITTED, NAMES),
            excluded: certs::cert_range(words, c, EXCLUDED, NAMES),
        })
    }
}

// Whether a name of kind k passes. The closure says whether some constraint of a range covers it.
fn allowed<F: Fn(Range) -> bool>(chain: Lent, nc: NameConstraints, k: Kind, covered: F) -> bool
    requires { F.IsAlwaysCallable covered }
    ensures { (covers : GeneralName → Bool) → ((r : Range) (b : Bool) → F.post covered r b → b ≡ any covers (generals_in chain.entry.words.now chain.entry.bytes.now r)) → result ≡ allowed k covers (generals_in chain.entry.words.now chain.entry.bytes.now nc.permitted) (generals_in chain.entry.words.now chain.entry.bytes.now nc.excluded) }
{
    if covered(nc.excluded) {
        return false;
    }
    if sans::has_kind(chain, nc.permitted, k) {
        return covered(nc.permitted);
    }
    true
}

// Whether a DNS name passes.
pub fn check_dns_name_constraints(
    chain: Lent,
    nc: NameConstraints,
    v: Covering,
    name: &[u8],
) -> bool
    ensures { result ≡ check_dns_name_constraints v (generals_in chain.entry.words.now chain.entry.bytes.now nc.permitted) (generals_in chain.entry.words.now chain.entry.bytes.now nc.excluded) name.now }
{
    allowed(
        chain,
        nc,
        Kind::Dns,
        |r| covering_dns::any_dns(chain, r, v, name),
    )
}

// Whether a directory name, as a range of RDNs, passes.
fn check_directory_name_constraints(chain: Lent, nc: NameConstraints, name: Range) -> bool
    ensures { result ≡ check_directory_name_constraints (generals_in chain.entry.words.now chain.entry.bytes.now nc.permitted) (generals_in chain.entry.words.now chain.entry.bytes.now nc.excluded) (name_in chain.entry.words.now chain.entry.bytes.now name) }
{
    allowed(
        chain,
        nc,
        Kind::Directory,
        |r| covering::any_directory(chain, r, name),
    )
}

// Whether an IP address passes.
fn check_ip_addr_name_constraints(chain: Lent, nc: NameConstraints, address: &[u8]) -> bool
    ensures { result ≡ check_ip_addr_name_constraints (generals_in chain.entry.words.now chain.entry.bytes.now nc.permitted) (generals_in chain.entry.words.now chain.entry.bytes.now nc.excluded) address.now }
{
    allowed(chain, nc, Kind::Ip, |r| covering::any_ip(chain, r, address))
}

// A DNS name as it is asked, not lowered yet.
fn asked_name(v: Covering, name: &[u8]) -> &[u8]
    ensures { lowered result.now ≡ lowered (asked_name v name.now) }
{
    match v {
        Covering::Lowered => name,
        Covering::Cleaned => patterns::names::clean_name(patterns::names::clean_name(name)),
    }
}

// Whether a name passes. Its text is fetched once, for all constraints.
fn nc_match(chain: Lent, nc: NameConstraints, v: Covering, n: NameNo) -> bool
    ensures { result ≡ nc_match v (generals_in chain.entry.words.now chain.entry.bytes.now nc.permitted) (generals_in chain.entry.words.now chain.entry.bytes.now nc.excluded) (general_at chain.entry.words.now chain.entry.bytes.now n.0) }
{
    match Kind::try_from(general_names::kind(chain.words, n)) {
        Ok(Kind::Dns) => {
            let name = asked_name(v, general_names::name_text(chain, n));
            check_dns_name_constraints(chain, nc, v, name)
        }
        Ok(Kind::Directory) => {
            check_directory_name_constraints(chain, nc, general_names::name_range(chain.words, n))
        }
        Ok(Kind::Ip) => {
            check_ip_addr_name_constraints(chain, nc, general_names::name_text(chain, n))
        }
        Err(word) => word.0 != OTHER,
    }
}

// Whether each name of a range passes.
fn names_pass(chain: Lent, nc: NameConstraints, v: Covering, r: Range) -> bool
    ensures { result ≡ all (nc_match v (generals_in chain.entry.words.now chain.entry.bytes.now nc.permitted) (generals_in chain.entry.words.now chain.entry.bytes.now nc.excluded)) (generals_in chain.entry.words.now chain.entry.bytes.now r) }
{
    (r.from..r.to).all(|i| nc_match(chain, nc, v, NameNo(i)))
}

// Whether the SAN of a certificate passes, if it has one.
pub fn check_san_constraints(chain: Lent, nc: NameConstraints, v: Covering, c: CertRow) -> bool
    ensures { result ≡ if_there (check_san_constraints v (generals_in chain.entry.words.now chain.entry.bytes.now nc.permitted) (generals_in chain.entry.words.now chain.entry.bytes.now nc.excluded)) (cert_at chain.entry.words.now chain.entry.bytes.now c.0).san }
{
    match sans::san(chain.words, c) {
        None => true,
        Some(names) => names_pass(chain, nc, v, names),
    }
}

// Whether a subject, as a range of RDNs, is empty or passes.
fn subject_passes(chain: Lent, nc: NameConstraints, subject: Range) -> bool
    ensures { result ≡ check_subject (generals_in chain.entry.words.now chain.entry.bytes.now nc.permitted) (generals_in chain.entry.words.now chain.entry.bytes.now nc.excluded) (name_in chain.entry.words.now chain.entry.bytes.now subject) }
{
    if subject.to <= subject.from {
        return true;
    }
    check_directory_name_constraints(chain, nc, subject)
}

// Whether the subject of a certificate is empty or passes.
pub fn check_subject(chain: Lent, nc: NameConstraints, c: CertRow) -> bool
    ensures { result ≡ check_subject (generals_in chain.entry.words.now chain.entry.bytes.now nc.permitted) (generals_in chain.entry.words.now chain.entry.bytes.now nc.excluded) (cert_at chain.entry.words.now chain.entry.bytes.now c.0).subject }
{
    subject_passes(chain, nc, certs::cert_range(chain.words, c, SUBJECT, RDNS))
}
