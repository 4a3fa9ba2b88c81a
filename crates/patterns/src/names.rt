// Host names: patterns with wildcards, cleaning, constraints.
ghost use Rattle.std.specs.Prelude.{◌≡◌};
ghost use Rattle.text.specs.Texts.{taken, lowered};
ghost use Rattle.patterns.specs.Patterns.{one_label, match_name, Cleaned, permit_name, host_text, check_valid_pattern, valid_name_constraint};

use text::Letters;

// Whether just one label stands in the lowered name before the tail.
fn one_label(letters: Letters, tail: &[u8], name: &[u8]) -> bool
    ensures { result ≡ one_label (taken letters tail.now) (lowered name.now) }
{
    if name.len() <= tail.len() {
        return false;
    }
    if !text::ends_with(letters, name, tail) {
        return false;
    }
    let at = name.len() - tail.len();
    !ascii::has_class(&name[..at], ascii::DOT)
}

// Whether the pattern, its letters taken as said, matches the lowered name.
pub fn match_name(letters: Letters, pattern: &[u8], name: &[u8]) -> bool
    ensures { result ≡ match_name (taken letters pattern.now) (lowered name.now) }
{
    if !text::starts_with(pattern, b"*.") {
        return text::same_lowered(letters, pattern, name);
    }
    let apex = &pattern[2..];
    !apex.is_empty()
        && (text::same_lowered(letters, apex, name) || one_label(letters, &pattern[1..], name))
}

// The clean name, as a part of the name: the final dot is off, the letters are not lowered yet.
pub fn clean_name(name: &[u8]) -> &[u8]
    ensures { Cleaned name.now result.now }
{
    name.strip_suffix(b".").unwrap_or(name)
}

// Whether the constraint, once cleaned, covers the lowered name.
pub fn permit_name(constraint: &[u8], name: &[u8]) -> bool
    ensures { result ≡ permit_name constraint.now (lowered name.now) }
{
    text::match_dns_name(clean_name(constraint), name)
}

// Whether a text is not empty and made of a host name's bytes.
fn host_text(s: &[u8]) -> bool
    ensures { result ≡ host_text s.now }
{
    !s.is_empty() && ascii::all_host_bytes(s)
}

// Whether a pattern is one that OpenSSL takes. A long text that begins with a wrong byte is gone through no further.
pub fn check_valid_pattern(pattern: &[u8]) -> bool
    ensures { result ≡ check_valid_pattern pattern.now }
{
    if !text::starts_with(pattern, b"*.") {
        return host_text(pattern);
    }
    let tail = &pattern[2..];
    host_text(tail) && ascii::has_class(tail, ascii::DOT)
}

// Whether a DNS constraint is one that Chrome takes. The whole text is gone through only where its end is right.
pub fn valid_name_constraint(constraint: &[u8]) -> bool
    ensures { result ≡ valid_name_constraint constraint.now }
{
    let name = clean_name(constraint);
    if name.is_empty() {
        return false;
    }
    !name.ends_with(b".") && !ascii::has_class(name, ascii::STAR)
}
