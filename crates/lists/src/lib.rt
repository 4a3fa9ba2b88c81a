// The lists of a policy bundle: whether one holds a text, and whether an entry of one matches a name.
#![tactic(auto)]

ghost use Rattle.std.specs.Prelude.{◌≡◌};
ghost use Rattle.laws.specs.Lists.{eq_list};
ghost use Rattle.text.specs.Texts.{lowered};
ghost use Rattle.patterns.specs.Patterns.{match_name};
ghost use Rattle.table.specs.Table.{over};
ghost use Rattle.model.specs.Decode.{entry_at, list_at};
ghost use Rattle.lists.specs.Listed.{listed, matched};

use model::policy::{EntryNo, ListNo};
use table::{Lent, Range};
use text::Letters;

// The nine lists, in the order of Chrome's `Policy`.
pub const PUBLIC_SUFFIX: ListNo = ListNo(0);

pub const CRL: ListNo = ListNo(1);

pub const KNOWN_ROOTS: ListNo = ListNo(2);

pub const SYMANTEC_ROOTS: ListNo = ListNo(3);

pub const SYMANTEC_EXCEPTIONS: ListNo = ListNo(4);

pub const INDIA_TRUSTED: ListNo = ListNo(5);

pub const INDIA_DOMAINS: ListNo = ListNo(6);

pub const ANSSI_TRUSTED: ListNo = ListNo(7);

pub const ANSSI_DOMAINS: ListNo = ListNo(8);

// Whether an entry is the text.
fn entry_is(lists: Lent, n: EntryNo, s: &[u8]) -> bool
    ensures { result ≡ eq_list (entry_at lists.entry.words.now lists.entry.bytes.now n.0) s.now }
{
    text::same(model::policy::entry(lists, n), s)
}

// Whether some entry of a range is the text.
fn any_is(lists: Lent, r: Range, s: &[u8]) -> bool
    ensures { result ≡ listed (over (entry_at lists.entry.words.now lists.entry.bytes.now) r) s.now }
{
    (r.from..r.to).any(|i| entry_is(lists, EntryNo(i), s))
}

// Whether a list holds a text, byte for byte.
pub fn in_list(lists: Lent, k: ListNo, s: &[u8]) -> bool
    ensures { result ≡ listed (list_at lists.entry.words.now lists.entry.bytes.now k.0) s.now }
{
    any_is(lists, model::policy::list(lists.words, k), s)
}

// Whether an entry, as it stands, matches the lowered name.
fn entry_matches(lists: Lent, n: EntryNo, name: &[u8]) -> bool
    ensures { result ≡ match_name (entry_at lists.entry.words.now lists.entry.bytes.now n.0) (lowered name.now) }
{
    patterns::names::match_name(Letters::AsGiven, model::policy::entry(lists, n), name)
}

// Whether some entry of a range matches the lowered name.
fn any_matches(lists: Lent, r: Range, name: &[u8]) -> bool
    ensures { result ≡ matched (over (entry_at lists.entry.words.now lists.entry.bytes.now) r) (lowered name.now) }
{
    (r.from..r.to).any(|i| entry_matches(lists, EntryNo(i), name))
}

// Whether some entry of a list matches the lowered name.
pub fn matches(lists: Lent, k: ListNo, name: &[u8]) -> bool
    ensures { result ≡ matched (list_at lists.entry.words.now lists.entry.bytes.now k.0) (lowered name.now) }
{
    any_matches(lists, model::policy::list(lists.words, k), name)
}
