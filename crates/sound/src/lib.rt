// Whether a bundle is sound, and else which refusal is due at which word. Nearly every bundle is sound, so that this is asked first; the search goes line by line.
#![tactic(auto)]

ghost use Rattle.std.specs.Prelude.{◌≡◌, not, eqb, ltb};
ghost use Rattle.table.specs.Table.{word as word_of, count_of};
ghost use Rattle.model.specs.Sections.{certs};
ghost use Rattle.sound.specs.Answer.{bundle_number, ChainVerdict, PolicyVerdict};
ghost use Rattle.sound.specs.Steps.{answer_of, first_word_fault};
ghost use Rattle.sound.specs.Limits.{too_large, most_certs, edition};

use model::chain::CERTS;
use sections::{CHAIN_HEADER, Fault, POLICY_HEADER};
use table::{CertPos, Lent, word};

const MOST_WORDS: usize = 8192;

const MOST_BYTES: usize = 65536;

const MOST_CERTS: u64 = 16;

// The edition that is read.
const EDITION: u64 = 1;

// Which bundle an answer speaks of.
#[derive(Clone, Copy)]
pub enum Bundle {
    Chain,
    Policy,
}

// The number by which an answer names the bundle.
impl From<Bundle> for u64 {
    ghost from_gives = { λ b n. n ≡ bundle_number b };

    fn from(b: Bundle) -> u64 {
        match b {
            Bundle::Chain => 0,
            Bundle::Policy => 1,
        }
    }
}

// Where something is wrong: nothing, a word, a certificate or a pair.
#[derive(Clone, Copy)]
pub enum Place {
    Nothing,
    Word(usize),
    Certificate(CertPos),
    Pair(CertPos, CertPos),
}

// Why a bundle is refused: the refusal's number, as a fault has it, the bundle, and where.
#[derive(Clone, Copy)]
pub struct Refusal {
    pub number: u64,
    pub bundle: Bundle,
    pub place: Place,
}

// Whether the header is not whole, or there are too many words or bytes.
fn is_too_large(lent: Lent, header: usize) -> bool
    ensures { result ≡ too_large header lent.entry.words.now lent.entry.bytes.now }
{
    let n = lent.words.len();
    (n < header) | (MOST_WORDS < n) | (MOST_BYTES < lent.bytes.len())
}

// Whether the header counts too many certificates.
fn has_too_many(words: &[u64]) -> bool
    ensures { result ≡ ltb most_certs (count_of words.now certs) }
{
    MOST_CERTS < table::count(words, CERTS)
}

// Whether the edition is not the one that is read.
fn has_other_edition(words: &[u64]) -> bool
    ensures { result ≡ not (eqb (word_of words.now 0) edition) }
{
    word(words, 0) != EDITION
}

// What is said of a bundle in which this was found: nothing, or the refusal at a word.
fn clear_of(bundle: Bundle, f: Option<Fault>) -> Result<(), Refusal>
    ensures { result ≡ answer_of bundle f }
{
    match f {
        None => Ok(()),
        Some(f) => Err(Refusal {
            number: f.number,
            bundle,
            place: Place::Word(f.word),
        }),
    }
}

// Refusals 2 and 3, both at word 0.
fn first_word_fault(words: &[u64], is_too_large: bool) -> Option<Fault>
    ensures { result ≡ first_word_fault words.now is_too_large }
{
    if is_too_large {
        return Some(Fault { number: 2, word: 0 });
    }
    if has_other_edition(words) {
        return Some(Fault { number: 3, word: 0 });
    }
    None
}

// Whether a chain bundle is sound, and else the refusal: the lowest number, then the lowest word.
pub fn check_chain(chain: Lent) -> Result<(), Refusal>
    ensures { ChainVerdict chain.entry.words.now chain.entry.bytes.now result }
{
    let is_too_large = is_too_large(chain, CHAIN_HEADER) | has_too_many(chain.words);
    clear_of(Bundle::Chain, first_word_fault(chain.words, is_too_large))?;
    if quick::chain_fine(chain) {
        return Ok(());
    }
    clear_of(Bundle::Chain, sections::chain_misplaced(chain.words))?;
    clear_of(Bundle::Chain, lines::chain_wrong(chain))
}

// Whether a policy bundle is sound, and else the refusal.
pub fn check_policy(lists: Lent) -> Result<(), Refusal>
    ensures { PolicyVerdict lists.entry.words.now lists.entry.bytes.now result }
{
    let is_too_large = is_too_large(lists, POLICY_HEADER);
    clear_of(Bundle::Policy, first_word_fault(lists.words, is_too_large))?;
    clear_of(Bundle::Policy, sections::policy_misplaced(lists.words))?;
    clear_of(Bundle::Policy, lines::policy_wrong(lists))
}
