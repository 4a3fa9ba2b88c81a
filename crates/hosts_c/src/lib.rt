// Rule 15 of Chrome. The host is fetched and cleaned once, and each name is compared with it in place.
#![tactic(auto)]

ghost use Rattle.std.specs.Prelude.{◌≡◌};
ghost use Rattle.laws.specs.Lists.{any};
ghost use Rattle.laws.specs.Optional.{there_and};
ghost use Rattle.text.specs.Texts.{lowered};
ghost use Rattle.model.specs.Model.{San};
ghost use Rattle.model.specs.Decode.{general_at, generals_in, cert_at, task_of, lists_of};
ghost use Rattle.sans.specs.Sans.{dns_and};
ghost use Rattle.hosts_c.specs.SanHost.{has_public_suffix, names_clean, match_san, host_named};

use model::chain::{CertRow, NameNo};
use sans::Kind;
use table::{Lent, Range};
use text::Letters;

// Whether a DNS name, once cleaned, matches the lowered host, or where only an exact one will do equals it.
fn names_clean(exact: bool, host: &[u8], name: &[u8]) -> bool
    ensures { result ≡ names_clean exact (lowered host.now) name.now }
{
    let part = patterns::names::clean_name(name);
    if exact {
        return text::same_lowered(Letters::Lowered, part, host);
    }
    patterns::names::match_name(Letters::Lowered, part, host)
}

// Whether a name is a DNS name that does.
fn dns_names(chain: Lent, n: NameNo, exact: bool, host: &[u8]) -> bool
    ensures { result ≡ dns_and (names_clean exact (lowered host.now)) (general_at chain.entry.words.now chain.entry.bytes.now n.0) }
{
    if sans::is_kind(chain, n, Kind::Dns) {
        return names_clean(exact, host, general_names::name_text(chain, n));
    }
    false
}

// Whether some name of a range is one that does.
fn any_dns_names(chain: Lent, r: Range, exact: bool, host: &[u8]) -> bool
    ensures { result ≡ any (dns_and (names_clean exact (lowered host.now))) (generals_in chain.entry.words.now chain.entry.bytes.now r) }
{
    (r.from..r.to).any(|i| dns_names(chain, NameNo(i), exact, host))
}

// Whether an entry of public_suffix matches the lowered name.
fn has_public_suffix(lists: Lent, name: &[u8]) -> bool
    ensures { result ≡ has_public_suffix (lists_of lists.entry.words.now lists.entry.bytes.now) (lowered name.now) }
{
    lists::matches(lists, lists::PUBLIC_SUFFIX, name)
}

// Whether some name of a SAN, as a range of names, is one for the lowered host. The list is searched once, for all names.
fn match_san(chain: Lent, lists: Lent, names: Range, host: &[u8]) -> bool
    ensures { result ≡ any (dns_and (names_clean (has_public_suffix (lists_of lists.entry.words.now lists.entry.bytes.now) (lowered host.now)) (lowered host.now))) (generals_in chain.entry.words.now chain.entry.bytes.now names) }
{
    any_dns_names(chain, names, has_public_suffix(lists, host), host)
}

// Whether a certificate has a SAN, and it is one for the lowered host.
fn match_san_domain(chain: Lent, lists: Lent, c: CertRow, host: &[u8]) -> bool
    ensures { result ≡ there_and (λ (s : San). match_san (lists_of lists.entry.words.now lists.entry.bytes.now) s (lowered host.now)) (cert_at chain.entry.words.now chain.entry.bytes.now c.0).san }
{
    match sans::san(chain.words, c) {
        None => false,
        Some(names) => match_san(chain, lists, names, host),
    }
}

// Whether the leaf is one for the host, if there is a host.
pub fn host_named(chain: Lent, lists: Lent, leaf: CertRow) -> bool
    ensures { result ≡ host_named (lists_of lists.entry.words.now lists.entry.bytes.now) (task_of chain.entry.words.now chain.entry.bytes.now) (cert_at chain.entry.words.now chain.entry.bytes.now leaf.0) }
{
    match model::chain::host(chain) {
        None => true,
        Some(host) => match_san_domain(chain, lists, leaf, patterns::names::clean_name(host)),
    }
}
