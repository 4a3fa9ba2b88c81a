// IP ranges.
ghost use Rattle.std.specs.Prelude.{◌≡◌, ◌+◌, length};
ghost use Rattle.patterns.specs.Address.{masked_equal, in_range, ip_addr_in_range};

fn masked_equal(network: u8, mask: u8, address: u8) -> bool
    ensures { result ≡ masked_equal network mask address }
{
    network & mask == address & mask
}

// Whether an address of n bytes lies in a range of twice as many. By index: a chain of zips over three slices was proved too, and took more instructions.
// Inlined, so that n is a constant where it is asked: else addresses of 4 bytes took a seventh longer.
#[inline(always)]
fn in_range(n: usize, range: &[u8], address: &[u8]) -> bool
    requires { (length range.now ≡ n + n) × (length address.now ≡ n) }
    ensures { result ≡ in_range n range.now address.now }
{
    (0..n).all(|i| masked_equal(range[i], range[i + n], address[i]))
}

// Whether an address of 4 or 16 bytes lies in the range, which holds as many bytes of network and then as many of mask.
pub fn ip_addr_in_range(range: &[u8], address: &[u8]) -> bool
    ensures { result ≡ ip_addr_in_range range.now address.now }
{
    let n = address.len();
    if range.len() != n + n {
        return false;
    }
    match n {
        4 => in_range(4, range, address),
        16 => in_range(16, range, address),
        _ => false,
    }
}
