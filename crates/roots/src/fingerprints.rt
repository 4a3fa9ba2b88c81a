// Rules 18 and 19. A fingerprint and a host are fetched once, and compared with the entries of a list in place.
ghost use Rattle.std.specs.Prelude.{◌≡◌};
ghost use Rattle.text.specs.Texts.{lowered};
ghost use Rattle.model.specs.Decode.{cert_at, task_of, list_at, lists_of};
ghost use Rattle.roots.specs.Fingerprints.{not_in_crl, serves_domains, serves_host, valid_root_fingerprint};

use certs::row::FINGERPRINT;
use model::chain::CertRow;
use model::policy::ListNo;
use table::Lent;

// Whether the policy does not revoke a certificate.
pub fn not_in_crl(chain: Lent, lists: Lent, c: CertRow) -> bool
    ensures { result ≡ not_in_crl (lists_of lists.entry.words.now lists.entry.bytes.now) (cert_at chain.entry.words.now chain.entry.bytes.now c.0) }
{
    !crate::is_listed(chain, lists, lists::CRL, c)
}

// Whether a root with the fingerprint is one for the lowered host: where it is in `trusted`, an entry of `domains` has to match.
fn serves_domains(
    lists: Lent,
    trusted: ListNo,
    domains: ListNo,
    fingerprint: &[u8],
    host: &[u8],
) -> bool
    ensures { result ≡ serves_domains (list_at lists.entry.words.now lists.entry.bytes.now trusted.0) (list_at lists.entry.words.now lists.entry.bytes.now domains.0) fingerprint.now (lowered host.now) }
{
    if lists::in_list(lists, trusted, fingerprint) {
        return lists::matches(lists, domains, host);
    }
    true
}

// Whether the root is one for the host by india's lists and by anssi's.
fn serves_host(chain: Lent, lists: Lent, root: CertRow, host: &[u8]) -> bool
    ensures { result ≡ serves_host (lists_of lists.entry.words.now lists.entry.bytes.now) (cert_at chain.entry.words.now chain.entry.bytes.now root.0) host.now }
{
    let fingerprint = certs::cert_string(chain, root, FINGERPRINT);
    if serves_domains(
        lists,
        lists::INDIA_TRUSTED,
        lists::INDIA_DOMAINS,
        fingerprint,
        host,
    ) {
        return serves_domains(
            lists,
            lists::ANSSI_TRUSTED,
            lists::ANSSI_DOMAINS,
            fingerprint,
            host,
        );
    }
    false
}

// Whether the root is one for the host, if there is a host.
pub fn valid_root_fingerprint(chain: Lent, lists: Lent, root: CertRow) -> bool
    ensures { result ≡ valid_root_fingerprint (lists_of lists.entry.words.now lists.entry.bytes.now) (task_of chain.entry.words.now chain.entry.bytes.now) (cert_at chain.entry.words.now chain.entry.bytes.now root.0) }
{
    match model::chain::host(chain) {
        None => true,
        Some(host) => serves_host(chain, lists, root, host),
    }
}
