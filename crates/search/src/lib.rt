// The search for the first fault of a line. The public function asks nothing of its caller.
#![tactic(auto)]

ghost use Rattle.std.specs.Prelude.{◌≡◌, ℕ, Bool, ◌<◌, ◌≤◌, length};
ghost use Rattle.laws.specs.Lists.{least};
ghost use Rattle.sections.specs.Found.{earlier_of};
ghost use Rattle.search.specs.Found.{settled, searched, first_row, found_in};
ghost use Rattle.search.specs.Rows.{row_at};

use model::policy::ENTRIES;
use row_tests::Test;
use sections::{Fault, earlier, is_misplaced};
use table::{Lent, Section, word};

// The rows that a line speaks of: the header, those of a section, or those of L in the range at a word of the header.
#[derive(Clone, Copy)]
pub enum Block {
    Header,
    All(Section),
    Listed(u8),
}

// A line of the tables: a refusal's number, the rows, the word of the row, and what may be wrong with it.
#[derive(Clone, Copy)]
pub struct Line {
    pub number: u64,
    pub block: Block,
    pub word: u8,
    pub test: Test,
}

// Rows of words: where the first begins, how long they are, how many. They are read where they stand in the lent words.
#[derive(Clone, Copy)]
pub struct Rows {
    pub at: usize,
    pub size: usize,
    pub count: usize,
}

const NO_ROWS: Rows = Rows {
    at: 0,
    size: 0,
    count: 0,
};

// Every row of a section, if it lies in the words: what is not there is not read.
fn section_rows(words: &[u64], s: Section) -> Rows
    ensures { result ≡ searched words.now (Block.All s) }
{
    if is_misplaced(words, 0, s) {
        return NO_ROWS;
    }
    Rows {
        at: table::offset(words, s) as usize,
        size: s.size as usize,
        count: table::count(words, s) as usize,
    }
}

// The rows of L in the range at word p of the header, if L lies in the words.
fn listed_rows(words: &[u64], p: u8) -> Rows
    ensures { result ≡ searched words.now (Block.Listed p) }
{
    if is_misplaced(words, 0, ENTRIES) {
        return NO_ROWS;
    }
    let at = p as usize;
    let r = model::chain::rows_in(words, ENTRIES, word(words, at), word(words, at + 1));
    let from = r.from;
    let to = r.to;
    if to <= from {
        return NO_ROWS;
    }
    Rows {
        at: (table::offset(words, ENTRIES) + from) as usize,
        size: 1,
        count: (to - from) as usize,
    }
}

// The rows of a line that are searched.
fn rows_of(words: &[u64], block: Block) -> Rows
    ensures { result ≡ searched words.now block }
{
    match block {
        Block::Header => Rows {
            at: 0,
            size: 0,
            count: 1,
        },
        Block::All(s) => section_rows(words, s),
        Block::Listed(p) => listed_rows(words, p),
    }
}

// The first of some rows that fails a test, asked of the word at which a row begins, or their number. The test is chosen once a line and not once a row, but for the tests that few lines have.
fn first_that<F: Fn(usize) -> bool>(r: Rows, fails: F) -> usize
    requires fits { row_at r r.count < 18446744073709551616 }
    requires asked { (k : ℕ) → k < r.count → F.pre fails (row_at r k) }
    ensures { (p : ℕ → Bool) → ((q : ℕ) (b : Bool) → F.post fails q b → b ≡ p q) → result ≡ least (λ k. p (row_at r k)) 0 r.count }
{
    (0..r.count)
        .position(|i| fails(r.at + r.size * i))
        .unwrap_or(r.count)
}

// The first wrong row of a line, or their number.
fn first_row(lent: Lent, l: Line, r: Rows) -> usize
    requires { row_at r r.count ≤ length lent.words.now }
    ensures { result ≡ first_row lent.entry.words.now lent.entry.bytes.now l r }
{
    let j = l.word as usize;
    match l.test {
        Test::StringOut => first_that(r, |q| row_tests::string_out(lent, q + j)),
        Test::NumberOut => first_that(r, |q| row_tests::no_string(lent.words, q + j)),
        Test::RangeOut(s) => first_that(r, |q| row_tests::no_range(lent.words, s, q + j)),
        Test::NumberHigh => first_that(r, |q| row_tests::number_high(lent, q + j)),
        test => first_that(r, |q| row_tests::is_wrong(lent, test, q, l.word)),
    }
}

// Whether a fault was found that goes before every fault of refusal n.
fn is_settled(f: Option<Fault>, n: u64) -> bool
    ensures { result ≡ settled f n }
{
    f.is_some_and(|g| g.number < n)
}

// The first of f and of the faults of a line. Where the rows' section does not lie in the words none is looked for.
pub fn with_line(lent: Lent, f: Option<Fault>, l: Line) -> Option<Fault>
    ensures { result ≡ earlier_of f (found_in lent.entry.words.now lent.entry.bytes.now l) }
{
    if is_settled(f, l.number) {
        return f;
    }
    let r = rows_of(lent.words, l.block);
    let i = first_row(lent, l, r);
    if i < r.count {
        let word = r.at + r.size * i + l.word as usize;
        return earlier(
            f,
            Fault {
                number: l.number,
                word,
            },
        );
    }
    f
}
