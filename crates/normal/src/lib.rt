// Texts compared in normal form, byte by byte, without a buffer.
#![tactic(auto)]

ghost use Rattle.std.specs.Prelude.{◌≡◌};
ghost use Rattle.normal.specs.Normal.{drop_front, same_normal};
ghost use Rattle.normal.specs.Walk.{Advanced};

// A byte of a normal form, and the text from which its rest is made.
#[derive(Clone, Copy)]
struct Step<'a> {
    byte: u8,
    rest: &'a [u8],
}

// A text without the spaces at its front.
fn past_spaces(s: &[u8]) -> &[u8]
    ensures { result.now ≡ drop_front s.now }
{
    let k = s.iter().position(|x| *x != b' ').unwrap_or(s.len());
    &s[k..]
}

// The first byte of what is left of a normal form, or nothing at its end.
fn advance(s: &[u8]) -> Option<Step<'_>>
    ensures { Advanced s.now result }
{
    let (x, after) = s.split_first()?;
    if *x != b' ' {
        return Some(Step {
            byte: ascii::lower(*x),
            rest: after,
        });
    }
    let rest = past_spaces(after);
    if rest.is_empty() {
        return None;
    }
    Some(Step { byte: b' ', rest })
}

// Whether two texts have equal normal forms. Equal texts need no walk.
pub fn same_normal(a: &[u8], b: &[u8]) -> bool
    ensures { result ≡ same_normal a.now b.now }
{
    if text::same(a, b) {
        return true;
    }
    let mut left = past_spaces(a);
    let mut right = past_spaces(b);
    while let Some(x) = advance(left) {
        let Some(y) = advance(right) else {
            return false;
        };
        if x.byte != y.byte {
            return false;
        }
        left = x.rest;
        right = y.rest;
    }
    advance(right).is_none()
}
