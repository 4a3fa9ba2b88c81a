// The policy bundle: its lists, in the order of Chrome's `Policy`.
ghost use Rattle.std.specs.Prelude.{◌≡◌};
ghost use Rattle.model.specs.Decode.{entry_at, list_range};

use table::{Lent, Range, Section};

pub const ENTRIES: Section = Section { count: 3, size: 1 };

// The word of the header at which the ranges of the lists begin: two words each.
pub const LISTS_FROM: usize = 5;

// The number of a list. A number and no enum: the header holds the ranges of the lists by it.
#[derive(Clone, Copy)]
pub struct ListNo(pub usize);

// A row of L.
#[derive(Clone, Copy)]
pub struct EntryNo(pub u64);

pub fn entry<'b>(lists: Lent<'_, 'b>, n: EntryNo) -> &'b [u8]
    ensures { result.now ≡ entry_at lists.entry.words.now lists.entry.bytes.now n.0 }
{
    table::string_named(lists, ENTRIES, n.0, 0)
}

// The entries of a list.
pub fn list(words: &[u64], k: ListNo) -> Range
    ensures { result ≡ list_range words.now k.0 }
{
    let n = k.0;
    if words.len() <= n {
        return crate::chain::rows_in(words, ENTRIES, 0, 0);
    }
    let at = LISTS_FROM + 2 * n;
    crate::chain::rows_in(
        words,
        ENTRIES,
        table::word(words, at),
        table::word(words, at + 1),
    )
}
