// Where each policy asks a rule.
#![tactic(auto)]

ghost use Rattle.std.specs.Prelude.{◌≡◌};
ghost use Rattle.policies.specs.Tables.{open_ssl_places, chrome_places, places_of};

use faults::Places;
use table::{CertPos, RuleNo};

// Whose rules are asked.
#[derive(Clone, Copy)]
pub enum Policy {
    OpenSsl,
    Chrome,
}

// Where a rule is asked: of every certificate, of every one but the leaf, but the root, but these two.
const EVERYWHERE: Places = Places::Each(CertPos(0), 0);

const ABOVE_LEAF: Places = Places::Each(CertPos(1), 0);

const BELOW_ROOT: Places = Places::Each(CertPos(0), 1);

const IN_BETWEEN: Places = Places::Each(CertPos(1), 1);

// Of every pair of a certificate above the leaf with one below it, with the root and without.
const PAIRS_ABOVE_LEAF: Places = Places::Pairs(CertPos(1), 0);

const PAIRS_IN_BETWEEN: Places = Places::Pairs(CertPos(1), 1);

// Where OpenSSL asks a rule.
fn openssl_places(rule: RuleNo) -> Places
    ensures { result ≡ open_ssl_places rule.0 }
{
    let n = rule.0;
    match n {
        2 => EVERYWHERE,
        3 => EVERYWHERE,
        4 => EVERYWHERE,
        5 => EVERYWHERE,
        6 => EVERYWHERE,
        7 => EVERYWHERE,
        8 => EVERYWHERE,
        9 => ABOVE_LEAF,
        10 => EVERYWHERE,
        11 => EVERYWHERE,
        12 => Places::Leaf,
        13 => Places::Neighbours,
        14 => PAIRS_ABOVE_LEAF,
        15 => Places::Leaf,
        _ => Places::Nowhere,
    }
}

// Where Chrome asks a rule.
fn chrome_places(rule: RuleNo) -> Places
    ensures { result ≡ chrome_places rule.0 }
{
    let n = rule.0;
    match n {
        2 => EVERYWHERE,
        3 => EVERYWHERE,
        4 => EVERYWHERE,
        5 => EVERYWHERE,
        6 => EVERYWHERE,
        8 => BELOW_ROOT,
        9 => ABOVE_LEAF,
        10 => EVERYWHERE,
        11 => EVERYWHERE,
        12 => Places::Leaf,
        13 => Places::Neighbours,
        14 => PAIRS_IN_BETWEEN,
        15 => Places::Leaf,
        16 => IN_BETWEEN,
        17 => Places::LeafAndRoot,
        18 => EVERYWHERE,
        19 => Places::Root,
        20 => Places::Root,
        _ => Places::Nowhere,
    }
}

// Where a policy asks a rule. Two tables, and a match that chooses, as the definition has them (`places_of`).
pub fn places_of(policy: Policy, rule: RuleNo) -> Places
    ensures { result ≡ places_of policy rule.0 }
{
    match policy {
        Policy::OpenSsl => openssl_places(rule),
        Policy::Chrome => chrome_places(rule),
    }
}
