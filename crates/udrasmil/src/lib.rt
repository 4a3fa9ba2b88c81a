// The boundary to callers outside: the judges, and their answers as eight words. No logic of its own. The crate udrasmil_c exports both to C (include/udrasmil.h).
#![tactic(auto)]

ghost use Rattle.std.specs.Prelude.{◌≡◌, [], ◌∷◌};
ghost use Rattle.sound.specs.Answer.{place_kind, place_first, place_second};
ghost use Rattle.judge.specs.Judged.{answer_words};
ghost use Rattle.udrasmil.specs.Boundary.{OpenSslAnswered, ChromeAnswered};

use judge::Answer;
use sound::Place;
use table::Lent;

// A place's kind and its two values, 0 where there is none, as the C interface has them.
fn place_words(q: Place) -> [u64; 3]
    ensures { result ≡ place_kind q ∷ place_first q ∷ place_second q ∷ [] }
{
    match q {
        Place::Nothing => [0, 0, 0],
        Place::Word(p) => [1, p as u64, 0],
        Place::Certificate(i) => [2, i.0 as u64, 0],
        Place::Pair(i, j) => [3, i.0 as u64, j.0 as u64],
    }
}

// An answer's number and values: number, bundle, kind of place, its two values, rule, total, entries written.
fn answer_words(a: Answer) -> [u64; 8]
    ensures { result ≡ answer_words a }
{
    match a {
        Answer::Accepted(place) => {
            let [kind, first, second] = place_words(place);
            [0, 0, kind, first, second, 0, 0, 0]
        }
        Answer::Broken(rule, place, total, written) => {
            let [kind, first, second] = place_words(place);
            [
                1,
                0,
                kind,
                first,
                second,
                rule.0 as u64,
                total as u64,
                written as u64,
            ]
        }
        Answer::Refused(n, bundle, place) => {
            let [kind, first, second] = place_words(place);
            [n, u64::from(bundle), kind, first, second, 0, 0, 0]
        }
    }
}

// OpenSSL's judge. What it takes is the C interface's, slice by slice.
pub fn udrasmil_judge_openssl(
    words: &[u64],
    bytes: &[u8],
    report: &mut [u32],
    answer: &mut [u64; 8],
)
    ensures { OpenSslAnswered words.now bytes.now report.old report.new answer.new }
{
    *answer = answer_words(judge::openssl(Lent { words, bytes }, report));
}

// Chrome's judge, by the C interface as well.
pub fn udrasmil_judge_chrome(
    words: &[u64],
    bytes: &[u8],
    pwords: &[u64],
    pbytes: &[u8],
    report: &mut [u32],
    answer: &mut [u64; 8],
)
    ensures { ChromeAnswered words.now bytes.now pwords.now pbytes.now report.old report.new answer.new }
{
    let chain = Lent { words, bytes };
    let lists = Lent {
        words: pwords,
        bytes: pbytes,
    };
    *answer = answer_words(judge::chrome(chain, lists, report));
}
