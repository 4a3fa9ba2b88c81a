// Whether some constraint of a range covers a DNS name. Hundreds of names may meet hundreds of constraints, so that whether the rows lie inside the words is tested once for a name.
#![tactic(auto)]

ghost use Rattle.std.specs.Prelude.{◌≡◌, true, ◌+◌, ◌*◌, ◌≤◌, ◌<◌, length};
ghost use Rattle.laws.specs.Lists.{any, rows};
ghost use Rattle.table.specs.Table.{offset_of, strings as string_rows};
ghost use Rattle.model.specs.Sections.{names as name_rows};
ghost use Rattle.model.specs.Decode.{kind_at, name_text, general_at, generals_in};
ghost use Rattle.covering_dns.specs.Covers.{dns_covers, over_dns};

use model::chain::{NAMES, NameNo};
use sans::Kind;
use table::{Lent, Range, STRINGS, StringNo};

// How a DNS constraint covers a name: both lowered, or the constraint cleaned and the name lowered. An enum and no closure, as `text::Letters`.
#[derive(Clone, Copy)]
pub enum Covering {
    Lowered,
    Cleaned,
}

// A chain, where its names and strings begin, the name before which a loop ends, and how many strings there are. They are read where they stand in the lent words: what is read begins where the header says, and lies inside the words.
#[derive(Clone, Copy)]
struct Rows<'a> {
    chain: Lent<'a, 'a>,
    names: u64,
    strings: u64,
    end: u64,
    count: u64,
    ghost names_at: { names ≡ offset_of chain.words.now name_rows },
    ghost strings_at: { strings ≡ offset_of chain.words.now string_rows },
    ghost names_in: { names + 3 * end ≤ length chain.words.now },
    ghost strings_in: { strings + 2 * count ≤ length chain.words.now },
}

fn dns_covers(v: Covering, constraint: &[u8], name: &[u8]) -> bool
    ensures { result ≡ dns_covers v constraint.now name.now }
{
    match v {
        Covering::Lowered => text::match_dns_name(constraint, name),
        Covering::Cleaned => patterns::names::permit_name(constraint, name),
    }
}

// Whether n rows of a size end inside the words.
fn fits(total: u64, at: u64, size: u64, n: u64) -> bool
    requires { 0 < size }
    ensures { result ≡ true → at + size * n ≤ total }
{
    if total < at {
        return false;
    }
    n <= (total - at) / size
}

impl<'a> Rows<'a> {
    // The kind as its word, as `general_names::kind` has it.
    fn kind(self, n: NameNo) -> u64
        requires { n.0 < self.end }
        ensures { result ≡ kind_at self.entry.chain.words.now n.0 }
    {
        self.chain.words[(self.names + 3 * n.0) as usize]
    }

    fn text(self, n: NameNo) -> &'a [u8]
        requires { n.0 < self.end }
        ensures { result.now ≡ name_text self.entry.chain.words.now self.entry.chain.bytes.now n.0 }
    {
        let words = self.chain.words;
        let x = words[(self.names + 3 * n.0 + 1) as usize];
        if x < self.count {
            let q = (self.strings + 2 * x) as usize;
            return table::cut(self.chain.bytes, words[q], words[q + 1]);
        }
        table::string(self.chain, StringNo(x))
    }

    fn covers(self, n: NameNo, v: Covering, name: &[u8]) -> bool
        requires { n.0 < self.end }
        ensures { result ≡ over_dns v name.now (general_at self.entry.chain.words.now self.entry.chain.bytes.now n.0) }
    {
        if self.kind(n) == 0 {
            return dns_covers(v, self.text(n), name);
        }
        false
    }

    fn any(self, first: u64, v: Covering, name: &[u8]) -> bool
        ensures { result ≡ any (over_dns v name.now) (rows (general_at self.entry.chain.words.now self.entry.chain.bytes.now) first self.entry.end) }
    {
        (first..self.end).any(|i| self.covers(NameNo(i), v, name))
    }
}

fn covers(chain: Lent, n: NameNo, v: Covering, name: &[u8]) -> bool
    ensures { result ≡ over_dns v name.now (general_at chain.entry.words.now chain.entry.bytes.now n.0) }
{
    if sans::is_kind(chain, n, Kind::Dns) {
        return dns_covers(v, general_names::name_text(chain, n), name);
    }
    false
}

// The same as `any_dns`, wherever the rows lie.
fn any_slow(chain: Lent, r: Range, v: Covering, name: &[u8]) -> bool
    ensures { result ≡ any (over_dns v name.now) (generals_in chain.entry.words.now chain.entry.bytes.now r) }
{
    (r.from..r.to).any(|i| covers(chain, NameNo(i), v, name))
}

// Whether some constraint of a range covers the DNS name.
pub fn any_dns(chain: Lent, r: Range, v: Covering, name: &[u8]) -> bool
    ensures { result ≡ any (over_dns v name.now) (generals_in chain.entry.words.now chain.entry.bytes.now r) }
{
    let names = table::offset(chain.words, NAMES);
    let strings = table::offset(chain.words, STRINGS);
    let count = table::count(chain.words, STRINGS);
    let total = chain.words.len() as u64;
    if fits(total, names, 3, r.to) {
        if fits(total, strings, 2, count) {
            let at = Rows {
                chain,
                names,
                strings,
                end: r.to,
                count,
            };
            return at.any(r.from, v, name);
        }
    }
    any_slow(chain, r, v, name)
}
