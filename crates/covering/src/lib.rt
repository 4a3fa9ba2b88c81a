// Whether some constraint of a range covers a directory name or an IP address. The name is fetched before, and each constraint is compared with it in place.
#![tactic(auto)]

ghost use Rattle.std.specs.Prelude.{◌≡◌};
ghost use Rattle.laws.specs.Lists.{any};
ghost use Rattle.model.specs.Decode.{name_in, general_at, generals_in};
ghost use Rattle.covering.specs.Covers.{over_directory, over_ip};

use model::chain::NameNo;
use names::Values;
use sans::Kind;
use table::{Lent, Range};

fn directory_over(chain: Lent, n: NameNo, name: Range) -> bool
    ensures { result ≡ over_directory (name_in chain.entry.words.now chain.entry.bytes.now name) (general_at chain.entry.words.now chain.entry.bytes.now n.0) }
{
    if sans::is_kind(chain, n, Kind::Directory) {
        return names::is_subtree_of(
            chain,
            Values::Normalised,
            general_names::name_range(chain.words, n),
            name,
        );
    }
    false
}

// Whether some constraint of a range covers the directory name, which is a range of RDNs.
pub fn any_directory(chain: Lent, r: Range, name: Range) -> bool
    ensures { result ≡ any (over_directory (name_in chain.entry.words.now chain.entry.bytes.now name)) (generals_in chain.entry.words.now chain.entry.bytes.now r) }
{
    (r.from..r.to).any(|i| directory_over(chain, NameNo(i), name))
}

fn ip_over(chain: Lent, n: NameNo, address: &[u8]) -> bool
    ensures { result ≡ over_ip address.now (general_at chain.entry.words.now chain.entry.bytes.now n.0) }
{
    if sans::is_kind(chain, n, Kind::Ip) {
        return patterns::address::ip_addr_in_range(general_names::name_text(chain, n), address);
    }
    false
}

// Whether some constraint of a range covers the IP address.
pub fn any_ip(chain: Lent, r: Range, address: &[u8]) -> bool
    ensures { result ≡ any (over_ip address.now) (generals_in chain.entry.words.now chain.entry.bytes.now r) }
{
    (r.from..r.to).any(|i| ip_over(chain, NameNo(i), address))
}
