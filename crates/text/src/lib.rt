// Bytes as text. Nothing is copied: a text is a part of the bytes that somebody lends.
#![tactic(auto)]

ghost use Rattle.std.specs.Prelude.{◌≡◌, eqb, length};
ghost use Rattle.laws.specs.Lists.{eq_list};
ghost use Rattle.ascii.specs.Bytes.{lower_byte};
ghost use Rattle.text.specs.Texts.{taken_byte, taken, lowered, starts_with, ends_with, match_dns_name};

// How a pattern's letters are taken: as they stand, or lowered. An enum and no closure: contracts name the case, and a closure would be asked whether it may be called, which no public function asks.
#[derive(Clone, Copy)]
pub enum Letters {
    AsGiven,
    Lowered,
}

// Whether two texts of one length are equal. The chain has no way out, so that it is compiled to compare many bytes at once.
fn agree(a: &[u8], b: &[u8]) -> bool
    requires { length a.now ≡ length b.now }
    ensures { result ≡ eq_list a.now b.now }
{
    (0..a.len()).fold(true, |ok, i| ok & (a[i] == b[i]))
}

// From so many bytes on a text is long.
const LONG: usize = 256;

// Whether two texts are equal as they stand. Short ones are compared by the library, which is quicker to see a difference; for texts of 32,000 bytes it took an eighth longer.
pub fn same(a: &[u8], b: &[u8]) -> bool
    ensures { result ≡ eq_list a.now b.now }
{
    if a.len() < LONG {
        return a == b;
    }
    if a.len() != b.len() {
        return false;
    }
    if a[0] != b[0] {
        return false;
    }
    agree(a, b)
}

// Whether two bytes are equal once they are lowered.
fn lowered_equal(x: u8, y: u8) -> bool
    ensures { result ≡ eqb (lower_byte x) (lower_byte y) }
{
    if x == y {
        return true;
    }
    ascii::lower(x) == ascii::lower(y)
}

// Whether a pattern's byte, its letter taken as said, is a name's lowered byte.
fn taken_equal(letters: Letters, x: u8, y: u8) -> bool
    ensures { result ≡ eqb (taken_byte letters x) (lower_byte y) }
{
    match letters {
        Letters::AsGiven => x == ascii::lower(y),
        Letters::Lowered => lowered_equal(x, y),
    }
}

// Whether a pattern, its letters taken as said, is the lowered name.
pub fn same_lowered(letters: Letters, p: &[u8], n: &[u8]) -> bool
    ensures { result ≡ eq_list (taken letters p.now) (lowered n.now) }
{
    p.len() == n.len() && p.iter().zip(n).all(|(x, y)| taken_equal(letters, *x, *y))
}

// Whether s begins with r, both as they stand.
pub fn starts_with(s: &[u8], r: &[u8]) -> bool
    ensures { result ≡ starts_with s.now r.now }
{
    let k = r.len();
    if s.len() < k {
        return false;
    }
    same(r, &s[..k])
}

// Whether the lowered s ends with r, whose letters are taken as said.
pub fn ends_with(letters: Letters, s: &[u8], r: &[u8]) -> bool
    ensures { result ≡ ends_with (lowered s.now) (taken letters r.now) }
{
    if s.len() < r.len() {
        return false;
    }
    let at = s.len() - r.len();
    same_lowered(letters, r, &s[at..])
}

// Whether the constraint covers the name, once both are lowered.
pub fn match_dns_name(constraint: &[u8], name: &[u8]) -> bool
    ensures { result ≡ match_dns_name constraint.now name.now }
{
    let k = constraint.len();
    if k == 0 {
        return true;
    }
    if !ends_with(Letters::Lowered, name, constraint) {
        return false;
    }
    if name.len() <= k {
        return true;
    }
    let before = name.len() - k - 1;
    (ascii::class_of(constraint[0]) == ascii::DOT) | (ascii::class_of(name[before]) == ascii::DOT)
}
