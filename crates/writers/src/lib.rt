// The writers of the report: each lends the tail of the report, from its first free word on, to the next.
#![tactic(auto)]

ghost use Rattle.std.specs.Prelude.{ℕ, List, ◌+◌, ◌-◌, ◌<◌};
ghost use Rattle.faults.specs.Report.{Wrote};
ghost use Rattle.faults.specs.Order.{Reported};
ghost use Rattle.faults.specs.Index.{gather, asked, each, neighbours, row, pairs, entries_at, index};
ghost use Rattle.faults.specs.declared.Tally.{Tally};
ghost use Rattle.faults.specs.declared.Entry.{Entry};
ghost use Rattle.policies.specs.Tables.{places_of, rules, short};
ghost use Rattle.rules.specs.Rules.{broken_by};

use faults::{Entry, FEWEST, NONE_YET, Places, Spot, Tally};
use rules::Case;
use table::{CertPos, RuleNo};

// The rule that a chain is long enough.
const SHORT: RuleNo = RuleNo(1);

// The numbers of all rules are below it.
const RULES: u32 = 21;

// What a rule owes at one spot.
fn write_one(case: Case, rule: RuleNo, spot: Spot, report: &mut [u32]) -> Tally
    ensures { Wrote (asked (broken_by case.entry) rule.0 spot) report.old report.new result }
{
    faults::put(case.breaks(rule, spot), Entry { rule, spot }, report)
}

// A writer a turn, from one number up to, and without, another: each is lent what those before it left free. Most write nothing, and then there is nothing to join.
fn write_turns<F: Fn(u32, &mut [u32]) -> Tally>(
    from: u32,
    to: u32,
    report: &mut [u32],
    write: F,
) -> Tally
    ghost entries: { ℕ → List Entry }
    requires calls { (i : ℕ) (s : _) → i < to → F.pre write i s }
    requires writes { (i : ℕ) (s : _) (t : Tally) (s' : _) → F.post write i s t s' → Wrote (entries i) s.now s'.now t }
    ensures { Wrote (gather (λ k. entries (from + k)) (to - from)) report.old report.new result }
{
    let mut tally = NONE_YET;
    for i in from..to {
        let at = 3 * tally.written;
        let t = write(i, &mut report[at..]);
        if t.total != 0 {
            tally = faults::joined(tally, t);
        }
    }
    tally
}

// At each certificate from one up to, and without, another. Most rules are broken nowhere, and then nothing is lent.
fn write_each(case: Case, rule: RuleNo, from: CertPos, to: u32, report: &mut [u32]) -> Tally
    ensures { Wrote (each (broken_by case.entry) rule.0 from.0 (to - from.0)) report.old report.new result }
{
    if !case.any_breaks(rule, from, to) {
        return NONE_YET;
    }
    write_turns(from.0, to, report, |i, rest| {
        write_one(case, rule, Spot::Certificate(CertPos(i)), rest)
    })
}

// At each pair of neighbours.
fn write_neighbours(case: Case, rule: RuleNo, to: u32, report: &mut [u32]) -> Tally
    ensures { Wrote (neighbours (broken_by case.entry) rule.0 to) report.old report.new result }
{
    write_turns(0, to, report, |i, rest| {
        let spot = Spot::Pair(CertPos(i), CertPos(i + 1));
        write_one(case, rule, spot, rest)
    })
}

// At each pair of one certificate and another below it. A certificate without constraints is passed over at once.
fn write_row(case: Case, rule: RuleNo, i: CertPos, report: &mut [u32]) -> Tally
    ensures { Wrote (row (broken_by case.entry) rule.0 i.0 i.0) report.old report.new result }
{
    if case.asks_nothing(rule, i) {
        return NONE_YET;
    }
    write_turns(0, i.0, report, |j, rest| {
        write_one(case, rule, Spot::Pair(i, CertPos(j)), rest)
    })
}

// At each pair, the first from one certificate up to, and without, another.
fn write_pairs(case: Case, rule: RuleNo, from: CertPos, to: u32, report: &mut [u32]) -> Tally
    ensures { Wrote (pairs (broken_by case.entry) rule.0 from.0 (to - from.0)) report.old report.new result }
{
    write_turns(from.0, to, report, |i, rest| {
        write_row(case, rule, CertPos(i), rest)
    })
}

// One rule, wherever it is asked of n certificates.
fn write_rule(case: Case, rule: RuleNo, n: u32, report: &mut [u32]) -> Tally
    ensures { Wrote (entries_at (broken_by case.entry) (places_of case.entry.policy rule.0) rule.0 n) report.old report.new result }
{
    let last = faults::without(n, 1);
    let leaf = Spot::Certificate(CertPos(0));
    let root = Spot::Certificate(CertPos(last));
    let ends = Spot::Pair(CertPos(0), CertPos(last));
    match policies::places_of(case.policy, rule) {
        Places::Nowhere => NONE_YET,
        Places::Leaf => write_one(case, rule, leaf, report),
        Places::Root => write_one(case, rule, root, report),
        Places::LeafAndRoot => write_one(case, rule, ends, report),
        Places::Each(from, before) => {
            write_each(case, rule, from, faults::without(n, before), report)
        }
        Places::Neighbours => write_neighbours(case, rule, last, report),
        Places::Pairs(from, before) => {
            write_pairs(case, rule, from, faults::without(n, before), report)
        }
    }
}

// All rules, in order.
fn write_rules(case: Case, n: u32, report: &mut [u32]) -> Tally
    ensures { Wrote (index (broken_by case.entry) (places_of case.entry.policy) n rules) report.old report.new result }
{
    write_turns(0, RULES, report, |r, rest| {
        write_rule(case, RuleNo(r), n, rest)
    })
}

// The whole report of n certificates.
pub fn write_report(case: Case, n: u32, report: &mut [u32]) -> Tally
    ensures { Reported short (broken_by case.entry) (places_of case.entry.policy) n report.old report.new result }
{
    if n < FEWEST {
        return faults::put_short(SHORT, report);
    }
    write_rules(case, n, report)
}
