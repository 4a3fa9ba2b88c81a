// A report of broken rules: its entries, what a writer puts into the words lent to it, and what it hands back. Nothing here knows a rule.
#![tactic(auto)]

ghost use Rattle.std.specs.Prelude.{◌≡◌, [], ◌∷◌, ◌-◌};
ghost use Rattle.faults.specs.Report.{Wrote, one, joined as joinedOf, first_word, second_word};
ghost use Rattle.faults.specs.Places.{short_entry};

use table::{CertPos, RuleNo};

// The word of an entry that names no certificate.
const NONE: u32 = 65535;

// The fewest certificates that make a chain.
pub const FEWEST: u32 = 2;

// Where a rule is broken: at no certificate, at one, or between two.
#[derive(Clone, Copy)]
pub enum Spot {
    Nothing,
    Certificate(CertPos),
    Pair(CertPos, CertPos),
}

// A rule, and where it is broken.
#[derive(Clone, Copy)]
pub struct Entry {
    pub rule: RuleNo,
    pub spot: Spot,
}

// What a writer hands back: how many entries there are, how many of them fitted, and the first, which may not have fitted. The report itself is lent by C.
#[derive(Clone, Copy)]
pub struct Tally {
    pub total: usize,
    pub written: usize,
    pub first: Option<Entry>,
}

// Where a rule is asked, of n certificates. Of the numbers that a case holds, the first is where i starts, the second how many at the root's end are left out.
#[derive(Clone, Copy)]
pub enum Places {
    Nowhere,
    Leaf,
    Root,
    LeafAndRoot,
    Each(CertPos, u32),
    Neighbours,
    Pairs(CertPos, u32),
}

// Before the first entry.
pub const NONE_YET: Tally = Tally {
    total: 0,
    written: 0,
    first: None,
};

fn first_word(s: Spot) -> u32
    ensures { result ≡ first_word s }
{
    match s {
        Spot::Nothing => NONE,
        Spot::Certificate(i) => i.0,
        Spot::Pair(i, _) => i.0,
    }
}

fn second_word(s: Spot) -> u32
    ensures { result ≡ second_word s }
{
    match s {
        Spot::Nothing => NONE,
        Spot::Certificate(_) => NONE,
        Spot::Pair(_, j) => j.0,
    }
}

// An entry at the head of what is lent, if it fits there.
pub fn put_entry(entry: Entry, report: &mut [u32]) -> Tally
    ensures { Wrote (entry ∷ []) report.old report.new result }
{
    let first = Some(entry);
    if report.len() < 3 {
        return Tally {
            total: 1,
            written: 0,
            first,
        };
    }
    let rule = entry.rule;
    let spot = entry.spot;
    report[0] = rule.0;
    report[1] = first_word(spot);
    report[2] = second_word(spot);
    Tally {
        total: 1,
        written: 1,
        first,
    }
}

// An entry where the test holds, and else nothing.
pub fn put(broken: bool, entry: Entry, report: &mut [u32]) -> Tally
    ensures { Wrote (one broken entry) report.old report.new result }
{
    if broken {
        return put_entry(entry, report);
    }
    NONE_YET
}

// The one entry of a chain that is too short.
pub fn put_short(rule: RuleNo, report: &mut [u32]) -> Tally
    ensures { Wrote (short_entry rule.0 ∷ []) report.old report.new result }
{
    put_entry(
        Entry {
            rule,
            spot: Spot::Nothing,
        },
        report,
    )
}

// What two writers hand back, of which the second was lent what the first left free.
pub fn joined(a: Tally, b: Tally) -> Tally
    ensures { result ≡ joinedOf a b }
{
    Tally {
        total: a.total.saturating_add(b.total),
        written: a.written.saturating_add(b.written),
        first: a.first.or(b.first),
    }
}

// How many of n certificates are left without the last k.
pub fn without(n: u32, k: u32) -> u32
    ensures { result ≡ n - k }
{
    n.saturating_sub(k)
}
