// Rule 15 of OpenSSL. The host is fetched once, and each name is compared with it in place.
#![tactic(auto)]

ghost use Rattle.std.specs.Prelude.{◌≡◌};
ghost use Rattle.laws.specs.Lists.{any};
ghost use Rattle.laws.specs.Optional.{there_and};
ghost use Rattle.model.specs.Model.{San};
ghost use Rattle.model.specs.Decode.{attribute_at, rdn_at, name_in, general_at, generals_in, cert_at, task_of};
ghost use Rattle.names.specs.Names.{rdn_in};
ghost use Rattle.sans.specs.Sans.{dns_and, common_and, some_common};
ghost use Rattle.hosts.specs.Hostname.{names_host, check_hostname, host_named};

use certs::row::SUBJECT;
use model::chain::{AttributeNo, CertRow, NameNo, RDNS, RdnNo};
use sans::Kind;
use table::{Lent, Range};
use text::Letters;

fn names_host(host: &[u8], name: &[u8]) -> bool
    ensures { result ≡ names_host host.now name.now }
{
    if patterns::names::check_valid_pattern(name) {
        return patterns::names::match_name(Letters::Lowered, name, host);
    }
    false
}

// Whether a name is a DNS name that names the host.
fn dns_names(chain: Lent, n: NameNo, host: &[u8]) -> bool
    ensures { result ≡ dns_and (names_host host.now) (general_at chain.entry.words.now chain.entry.bytes.now n.0) }
{
    if sans::is_kind(chain, n, Kind::Dns) {
        return names_host(host, general_names::name_text(chain, n));
    }
    false
}

fn any_dns_names(chain: Lent, r: Range, host: &[u8]) -> bool
    ensures { result ≡ any (dns_and (names_host host.now)) (generals_in chain.entry.words.now chain.entry.bytes.now r) }
{
    (r.from..r.to).any(|i| dns_names(chain, NameNo(i), host))
}

// Whether a certificate has a SAN with a DNS name that names the host.
fn san_names(chain: Lent, c: CertRow, host: &[u8]) -> bool
    ensures { result ≡ there_and (λ (s : San). any (dns_and (names_host host.now)) s.names) (cert_at chain.entry.words.now chain.entry.bytes.now c.0).san }
{
    match sans::san(chain.words, c) {
        None => false,
        Some(names) => any_dns_names(chain, names, host),
    }
}

// Whether an attribute is a common name that names the host.
fn common_names(chain: Lent, a: AttributeNo, host: &[u8]) -> bool
    ensures { result ≡ common_and (names_host host.now) (attribute_at chain.entry.words.now chain.entry.bytes.now a.0) }
{
    if sans::is_common(chain, a) {
        return names_host(host, rows::value(chain, a));
    }
    false
}

fn any_common_names(chain: Lent, r: Range, host: &[u8]) -> bool
    ensures { result ≡ any (common_and (names_host host.now)) (rdn_in chain.entry.words.now chain.entry.bytes.now r) }
{
    (r.from..r.to).any(|i| common_names(chain, AttributeNo(i), host))
}

fn rdn_names(chain: Lent, n: RdnNo, host: &[u8]) -> bool
    ensures { result ≡ any (common_and (names_host host.now)) (rdn_at chain.entry.words.now chain.entry.bytes.now n.0) }
{
    any_common_names(chain, rows::rdn(chain.words, n), host)
}

// Whether some common name of a distinguished name, as a range of RDNs, names the host.
fn any_rdn_names(chain: Lent, r: Range, host: &[u8]) -> bool
    ensures { result ≡ some_common (names_host host.now) (name_in chain.entry.words.now chain.entry.bytes.now r) }
{
    (r.from..r.to).any(|i| rdn_names(chain, RdnNo(i), host))
}

fn subject_names(chain: Lent, c: CertRow, host: &[u8]) -> bool
    ensures { result ≡ some_common (names_host host.now) (cert_at chain.entry.words.now chain.entry.bytes.now c.0).subject }
{
    any_rdn_names(
        chain,
        certs::cert_range(chain.words, c, SUBJECT, RDNS),
        host,
    )
}

// Whether a certificate is one for the host.
pub fn check_hostname(chain: Lent, c: CertRow, host: &[u8]) -> bool
    ensures { result ≡ check_hostname (cert_at chain.entry.words.now chain.entry.bytes.now c.0) host.now }
{
    if san_names(chain, c, host) {
        return true;
    }
    if sans::check_san_has_dns(chain, c) {
        return false;
    }
    subject_names(chain, c, host)
}

// Whether the leaf is one for the host, if there is a host.
pub fn host_named(chain: Lent, leaf: CertRow) -> bool
    ensures { result ≡ host_named (task_of chain.entry.words.now chain.entry.bytes.now) (cert_at chain.entry.words.now chain.entry.bytes.now leaf.0) }
{
    match model::chain::host(chain) {
        None => true,
        Some(host) => check_hostname(chain, leaf, host),
    }
}
