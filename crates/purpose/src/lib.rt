// Rule 8: what the key may be used for.
#![tactic(auto)]

ghost use Rattle.std.specs.Prelude.{◌≡◌};
ghost use Rattle.laws.specs.Lists.{any};
ghost use Rattle.table.specs.Table.{over};
ghost use Rattle.model.specs.Decode.{cert_at, usage_of, usage_at};
ghost use Rattle.purpose.specs.Purpose.{serves, extended_key_usage_valid, key_usage_serves, check_purpose};

use certs::row::{EKU, EKU_USAGES, KU, KU_BITS};
use certs::{cert_range, cert_word};
use model::chain::{CertRow, USAGES, UsageNo};
use table::{Lent, Range};

// The usages by their numbers. An enum would have eight cases, and two are asked for.
const SERVER_AUTH: u64 = 0;

const ANY_USAGE: u64 = 6;

// What each of these bits adds to the word.
const DIGITAL_SIGNATURE: u64 = 1;

const KEY_ENCIPHERMENT: u64 = 4;

const KEY_AGREEMENT: u64 = 16;

// The usages that serve: ServerAuth alone, or Any too. An enum and no closure, as `text::Letters`.
#[derive(Clone, Copy)]
pub enum Serving {
    Server,
    ServerOrAny,
}

fn serves(s: Serving, usage: u64) -> bool
    ensures { result ≡ serves s (usage_of usage) }
{
    match s {
        Serving::Server => usage == SERVER_AUTH,
        Serving::ServerOrAny => (usage == SERVER_AUTH) | (usage == ANY_USAGE),
    }
}

fn usage_serves(words: &[u64], s: Serving, n: UsageNo) -> bool
    ensures { result ≡ serves s (usage_at words.now n.0) }
{
    serves(s, rows::usage(words, n))
}

// Whether some usage of a range serves.
fn any_serves(words: &[u64], s: Serving, r: Range) -> bool
    ensures { result ≡ any (serves s) (over (usage_at words.now) r) }
{
    (r.from..r.to).any(|i| usage_serves(words, s, UsageNo(i)))
}

// Whether an EKU that is there has a usage that serves.
pub fn extended_key_usage_valid(chain: Lent, s: Serving, c: CertRow) -> bool
    ensures { result ≡ extended_key_usage_valid s (cert_at chain.entry.words.now chain.entry.bytes.now c.0) }
{
    if cert_word(chain.words, c, EKU) == 0 {
        return true;
    }
    any_serves(
        chain.words,
        s,
        cert_range(chain.words, c, EKU_USAGES, USAGES),
    )
}

fn key_usage_serves(chain: Lent, c: CertRow) -> bool
    ensures { result ≡ key_usage_serves (cert_at chain.entry.words.now chain.entry.bytes.now c.0) }
{
    let bits = cert_word(chain.words, c, KU_BITS);
    let serves = (bits / DIGITAL_SIGNATURE % 2 == 1)
        | (bits / KEY_ENCIPHERMENT % 2 == 1)
        | (bits / KEY_AGREEMENT % 2 == 1);
    (cert_word(chain.words, c, KU) == 0) | serves
}

// Whether a certificate may serve, as the leaf or above it.
pub fn check_purpose(chain: Lent, leaf: bool, c: CertRow) -> bool
    ensures { result ≡ check_purpose leaf (cert_at chain.entry.words.now chain.entry.bytes.now c.0) }
{
    extended_key_usage_valid(chain, Serving::Server, c) & (!leaf | key_usage_serves(chain, c))
}
