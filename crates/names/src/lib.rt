// Distinguished names, on the rows of a bundle. Each loop stops at the first row that decides, and nothing is copied.
#![tactic(auto)]

ghost use Rattle.std.specs.Prelude.{◌≡◌, ◌-◌};
ghost use Rattle.laws.specs.Lists.{all};
ghost use Rattle.model.specs.Decode.{oid_at, attribute_at, rdn_at, name_in};
ghost use Rattle.names.specs.Numbers.{same_numbers};
ghost use Rattle.names.specs.Names.{same_value, same_attr, same_rdn, same_dn, rdn_has_name, is_subtree_rdn, is_subtree_of, rdn_in};

use model::chain::{ATTRIBUTES, AttributeNo, RdnNo};
use table::{Lent, Range};

// How values are compared: as they stand, or in normal form. An enum and no closure, as `text::Letters`.
#[derive(Clone, Copy)]
pub enum Values {
    AsGiven,
    Normalised,
}

fn same_value(v: Values, a: &[u8], b: &[u8]) -> bool
    ensures { result ≡ same_value v a.now b.now }
{
    match v {
        Values::AsGiven => text::same(a, b),
        Values::Normalised => normal::same_normal(a, b),
    }
}

// Whether a is the same as b, whose OID is lent. The values are fetched only where the OIDs are equal.
fn same_as(chain: Lent, v: Values, a: AttributeNo, b: AttributeNo, oid: &[u8]) -> bool
    requires { oid.now ≡ oid_at chain.words.now chain.bytes.now b.0 }
    ensures { result ≡ same_attr v (attribute_at chain.entry.words.now chain.entry.bytes.now a.0) (attribute_at chain.entry.words.now chain.entry.bytes.now b.0) }
{
    if text::same(rows::oid(chain, a), oid) {
        return same_value(v, rows::value(chain, a), rows::value(chain, b));
    }
    false
}

// Whether two attributes have the same string numbers, for OID and value.
fn same_numbers(words: &[u64], a: AttributeNo, b: AttributeNo) -> bool
    ensures { result ≡ same_numbers words.now a.0 b.0 }
{
    let x = table::two_fields(words, ATTRIBUTES, a.0, 0);
    let y = table::two_fields(words, ATTRIBUTES, b.0, 0);
    (x.first == y.first) & (x.second == y.second)
}

// Whether two attributes are the same. Where they have the same string numbers, no text has to be looked at.
pub fn same_attr(chain: Lent, v: Values, a: AttributeNo, b: AttributeNo) -> bool
    ensures { result ≡ same_attr v (attribute_at chain.entry.words.now chain.entry.bytes.now a.0) (attribute_at chain.entry.words.now chain.entry.bytes.now b.0) }
{
    if same_numbers(chain.words, a, b) {
        return true;
    }
    same_as(chain, v, a, b, rows::oid(chain, b))
}

// How many rows a range has.
fn size(r: Range) -> u64
    ensures { result ≡ r.to - r.from }
{
    r.to.saturating_sub(r.from)
}

// Whether two RDNs, as ranges of attributes, are the same. The lengths are compared first. This, `same_dn` and `is_subtree_of` are a comparison and a chain each, and no two take the same rows.
fn same_attrs(chain: Lent, v: Values, x: Range, y: Range) -> bool
    ensures { result ≡ same_rdn v (rdn_in chain.entry.words.now chain.entry.bytes.now x) (rdn_in chain.entry.words.now chain.entry.bytes.now y) }
{
    if size(x) != size(y) {
        return false;
    }
    (x.from..x.to).zip(y.from..y.to).all(|(i, j)| same_attr(
        chain,
        v,
        AttributeNo(i),
        AttributeNo(j),
    ))
}

// Whether two RDNs are the same.
pub fn same_rdn(chain: Lent, v: Values, a: RdnNo, b: RdnNo) -> bool
    ensures { result ≡ same_rdn v (rdn_at chain.entry.words.now chain.entry.bytes.now a.0) (rdn_at chain.entry.words.now chain.entry.bytes.now b.0) }
{
    same_attrs(
        chain,
        v,
        rows::rdn(chain.words, a),
        rows::rdn(chain.words, b),
    )
}

// Whether two names, as ranges of RDNs, are the same. The lengths are compared first.
pub fn same_dn(chain: Lent, v: Values, x: Range, y: Range) -> bool
    ensures { result ≡ same_dn v (name_in chain.entry.words.now chain.entry.bytes.now x) (name_in chain.entry.words.now chain.entry.bytes.now y) }
{
    if size(x) != size(y) {
        return false;
    }
    (x.from..x.to)
        .zip(y.from..y.to)
        .all(|(i, j)| same_rdn(chain, v, RdnNo(i), RdnNo(j)))
}

// Whether an RDN, as a range of attributes, has an attribute. The OID that is looked for is fetched once.
pub fn rdn_has_name(chain: Lent, v: Values, r: Range, a: AttributeNo) -> bool
    ensures { result ≡ rdn_has_name v (rdn_in chain.entry.words.now chain.entry.bytes.now r) (attribute_at chain.entry.words.now chain.entry.bytes.now a.0) }
{
    let oid = rows::oid(chain, a);
    (r.from..r.to).any(|i| same_as(chain, v, AttributeNo(i), a, oid))
}

// Whether the RDN y has each attribute of the RDN x, both as ranges of attributes.
fn has_names(chain: Lent, v: Values, x: Range, y: Range) -> bool
    ensures { result ≡ all (rdn_has_name v (rdn_in chain.entry.words.now chain.entry.bytes.now y)) (rdn_in chain.entry.words.now chain.entry.bytes.now x) }
{
    (x.from..x.to).all(|i| rdn_has_name(chain, v, y, AttributeNo(i)))
}

// Whether the RDN a is a subtree of b.
pub fn is_subtree_rdn(chain: Lent, v: Values, a: RdnNo, b: RdnNo) -> bool
    ensures { result ≡ is_subtree_rdn v (rdn_at chain.entry.words.now chain.entry.bytes.now a.0) (rdn_at chain.entry.words.now chain.entry.bytes.now b.0) }
{
    let x = rows::rdn(chain.words, a);
    let y = rows::rdn(chain.words, b);
    if size(y) < size(x) {
        return false;
    }
    has_names(chain, v, x, y)
}

// Whether the name x, as a range of RDNs, is a subtree of y. The lengths are compared first.
pub fn is_subtree_of(chain: Lent, v: Values, x: Range, y: Range) -> bool
    ensures { result ≡ is_subtree_of v (name_in chain.entry.words.now chain.entry.bytes.now x) (name_in chain.entry.words.now chain.entry.bytes.now y) }
{
    if size(y) < size(x) {
        return false;
    }
    (x.from..x.to)
        .zip(y.from..y.to)
        .all(|(i, j)| is_subtree_rdn(chain, v, RdnNo(i), RdnNo(j)))
}
