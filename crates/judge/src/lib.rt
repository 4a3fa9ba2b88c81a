// The judge: bundles are checked, the report is written, and the answer says what came of it.
#![tactic(auto)]

ghost use Rattle.std.specs.Prelude.{◌≡◌, ◌<◌};
ghost use Rattle.table.specs.Table.{count_of};
ghost use Rattle.model.specs.Sections.{certs};
ghost use Rattle.rules.specs.Rules.{chain_in, lists_in};
ghost use Rattle.judge.specs.Judged.{place_of, answer_of, refused_by, Judging, Outcome, OpenSslJudged, BothVerdict, ChromeJudged};

use faults::{Spot, Tally};
use model::chain::CERTS;
use policies::Policy;
use rules::Case;
use sound::{Bundle, Place, Refusal};
use table::{Lent, RuleNo};

// What a policy without lists lends.
const NO_LISTS: Lent<'static, 'static> = Lent {
    words: &[],
    bytes: &[],
};

// What the judge says. Every answer holds its place. A broken rule comes with the total of entries and how many of them were written, a refusal with the bundle.
#[derive(Clone, Copy)]
pub enum Answer {
    Accepted(Place),
    Broken(RuleNo, Place, usize, usize),
    Refused(u64, Bundle, Place),
}

// The place of an entry. It can't be a From: both types are of crates below.
fn place_of(spot: Spot) -> Place
    ensures { result ≡ place_of spot }
{
    match spot {
        Spot::Nothing => Place::Nothing,
        Spot::Certificate(i) => Place::Certificate(i),
        Spot::Pair(i, j) => Place::Pair(i, j),
    }
}

// What is said of the report that was written.
impl From<Tally> for Answer {
    ghost from_gives = { λ t a. a ≡ answer_of t };

    fn from(t: Tally) -> Answer {
        match t.first {
            None => Answer::Accepted(Place::Nothing),
            Some(e) => Answer::Broken(e.rule, place_of(e.spot), t.total, t.written),
        }
    }
}

// What is said of a bundle that is not sound.
impl From<Refusal> for Answer {
    ghost from_gives = { λ r a. a ≡ refused_by r };

    fn from(r: Refusal) -> Answer {
        Answer::Refused(r.number, r.bundle, r.place)
    }
}

// The judgement of sound bundles, whose certificates can be counted in 32 bits.
fn judge_sound(case: Case, report: &mut [u32]) -> Answer
    requires { count_of case.chain.words.now certs < 4294967296 }
    ensures { Judging case.entry.policy (chain_in case.entry) (lists_in case.entry) report.old report.new result }
{
    let n = table::count(case.chain.words, CERTS) as u32;
    Answer::from(writers::write_report(case, n, report))
}

// What follows from the check of the bundles. One that is not sound is refused, and the report stays as it was.
fn judge_checked(checked: Result<(), Refusal>, case: Case, report: &mut [u32]) -> Answer
    requires { checked ≡ Ok tt → count_of case.chain.words.now certs < 4294967296 }
    ensures { Outcome case.entry.policy (chain_in case.entry) (lists_in case.entry) checked report.old report.new result }
{
    match checked {
        Ok(()) => judge_sound(case, report),
        Err(refusal) => Answer::from(refusal),
    }
}

// Judges a chain as an OpenSSL client would.
pub fn openssl<'a>(chain: Lent<'a, 'a>, report: &mut [u32]) -> Answer
    ensures { OpenSslJudged chain.entry.words.now chain.entry.bytes.now report.old report.new result }
{
    let case = Case {
        policy: Policy::OpenSsl,
        chain,
        lists: NO_LISTS,
    };
    judge_checked(sound::check_chain(chain), case, report)
}

// The chain's bundle goes first.
fn check_both(chain: Lent, lists: Lent) -> Result<(), Refusal>
    ensures { BothVerdict chain.entry.words.now chain.entry.bytes.now lists.entry.words.now lists.entry.bytes.now result }
{
    sound::check_chain(chain)?;
    sound::check_policy(lists)
}

// Judges a chain as a Chrome client would, by the lists of the policy's bundle.
pub fn chrome(chain: Lent, lists: Lent, report: &mut [u32]) -> Answer
    ensures { ChromeJudged chain.entry.words.now chain.entry.bytes.now lists.entry.words.now lists.entry.bytes.now report.old report.new result }
{
    let case = Case {
        policy: Policy::Chrome,
        chain,
        lists,
    };
    judge_checked(check_both(chain, lists), case, report)
}
