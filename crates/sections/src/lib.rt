// Where the sections of the two bundles may lie, and the first that lies elsewhere. The public functions ask nothing of their caller.
#![tactic(auto)]

ghost use Rattle.std.specs.Prelude.{◌≡◌, Some, None};
ghost use Rattle.model.specs.Sections.{chain_header, policy_header};
ghost use Rattle.sections.specs.Found.{earlier_of, found_each};
ghost use Rattle.sections.specs.Placed.{misplaced, found_section, chain_sections, policy_sections};

use model::chain::{ATTRIBUTES, CERTS, NAMES, RDNS, USAGES};
use model::policy::ENTRIES;
use table::{STRINGS, Section};

// The words of a chain bundle's header.
pub const CHAIN_HEADER: usize = 16;

// The words of a policy bundle's header.
pub const POLICY_HEADER: usize = 23;

// Where a bundle is wrong: a refusal's number and a word. A number and no enum: document 01 and the C header name refusals so, and the lowest goes first, then the lowest word.
#[derive(Clone, Copy, PartialEq, Eq, PartialOrd, Ord)]
pub struct Fault {
    pub number: u64,
    pub word: usize,
}

// The first of what was found so far and one more fault.
pub fn earlier(f: Option<Fault>, g: Fault) -> Option<Fault>
    ensures { result ≡ earlier_of f (Some g) }
{
    match f {
        Some(h) if h <= g => f,
        _ => Some(g),
    }
}

// Whether a section begins in the header or ends past the words, by a division, which can't wrap.
pub fn is_misplaced(words: &[u64], header: usize, s: Section) -> bool
    ensures { result ≡ misplaced header words.now s }
{
    let total = words.len() as u64;
    let at = table::offset(words, s);
    let size = s.size;
    if at < header as u64 {
        return true;
    }
    if total < at {
        return true;
    }
    if size == 0 {
        return false;
    }
    (total - at) / size < table::count(words, s)
}

// The first of f and of a misplaced section.
fn with_section(words: &[u64], header: usize, f: Option<Fault>, s: Section) -> Option<Fault>
    ensures { result ≡ earlier_of f (found_section header words.now s) }
{
    if is_misplaced(words, header, s) {
        return earlier(
            f,
            Fault {
                number: 4,
                word: s.count,
            },
        );
    }
    f
}

// The first misplaced of some sections.
fn first_misplaced(words: &[u64], header: usize, sections: &[Section]) -> Option<Fault>
    ensures { result ≡ found_each (found_section header words.now) None sections.now }
{
    sections
        .iter()
        .fold(None, |f, s| with_section(words, header, f, *s))
}

// The first misplaced section of a chain bundle.
pub fn chain_misplaced(words: &[u64]) -> Option<Fault>
    ensures { result ≡ found_each (found_section chain_header words.now) None chain_sections }
{
    let sections = [STRINGS, ATTRIBUTES, RDNS, NAMES, USAGES, CERTS];
    first_misplaced(words, CHAIN_HEADER, &sections)
}

// The same of a policy bundle.
pub fn policy_misplaced(words: &[u64]) -> Option<Fault>
    ensures { result ≡ found_each (found_section policy_header words.now) None policy_sections }
{
    let sections = [STRINGS, ENTRIES];
    first_misplaced(words, POLICY_HEADER, &sections)
}
