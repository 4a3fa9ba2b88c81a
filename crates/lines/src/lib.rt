// What the tables ask of the words of the rows of the two bundles, line by line.
#![tactic(auto)]

ghost use Rattle.std.specs.Prelude.{◌≡◌, None};
ghost use Rattle.model.specs.Sections.{entries};
ghost use Rattle.sections.specs.Found.{found_each};
ghost use Rattle.search.specs.Found.{found_in};
ghost use Rattle.lines.specs.Tables.{line, cert, tables_out, cert_strings_out, cert_ranges_out, codes_over, marks_over, names_high, chain_lines, lists_out, entries_high, policy_lines};

use model::chain::{ATTRIBUTES, CERTS, NAMES, RDNS, USAGES};
use model::policy::ENTRIES;
use row_tests::Test;
use search::{Block, Line, with_line};
use sections::Fault;
use table::{Lent, STRINGS, Section};

// A line of a word of the header.
fn header(number: u64, word: u8, test: Test) -> Line
    ensures { result ≡ line number Block.Header word test }
{
    Line {
        number,
        block: Block::Header,
        word,
        test,
    }
}

// A line of a word of every row of a section.
fn rows(number: u64, s: Section, word: u8, test: Test) -> Line
    ensures { result ≡ line number (Block.All s) word test }
{
    Line {
        number,
        block: Block::All(s),
        word,
        test,
    }
}

// A line of a word of every certificate.
fn cert(number: u64, word: u8, test: Test) -> Line
    ensures { result ≡ cert number word test }
{
    rows(number, CERTS, word, test)
}

// The line of the entries of L in the range at a word of the header: no byte over 127.
fn listed(at: u8) -> Line
    ensures { result ≡ line 7 (Block.Listed at) 0 Test.NumberHigh }
{
    Line {
        number: 7,
        block: Block::Listed(at),
        word: 0,
        test: Test::NumberHigh,
    }
}

// The first of f and of the faults of some lines.
fn each_line(lent: Lent, f: Option<Fault>, lines: &[Line]) -> Option<Fault>
    ensures { result ≡ found_each (found_in lent.entry.words.now lent.entry.bytes.now) f lines.now }
{
    lines.iter().fold(f, |f, l| with_line(lent, f, *l))
}

// Numbers and ranges of the header and the tables.
fn tables_out(lent: Lent, f: Option<Fault>) -> Option<Fault>
    ensures { result ≡ found_each (found_in lent.entry.words.now lent.entry.bytes.now) f tables_out }
{
    let lines = [
        header(5, 13, Test::OptionalOut),
        rows(5, STRINGS, 0, Test::StringOut),
        rows(5, ATTRIBUTES, 0, Test::NumberOut),
        rows(5, ATTRIBUTES, 1, Test::NumberOut),
        rows(5, RDNS, 0, Test::RangeOut(ATTRIBUTES)),
        rows(5, NAMES, 1, Test::NameOut),
    ];
    each_line(lent, f, &lines)
}

// Strings of certificates.
fn cert_strings_out(lent: Lent, f: Option<Fault>) -> Option<Fault>
    ensures { result ≡ found_each (found_in lent.entry.words.now lent.entry.bytes.now) f cert_strings_out }
{
    let lines = [
        cert(5, 0, Test::NumberOut),
        cert(5, 2, Test::NumberOut),
        cert(5, 3, Test::NumberOut),
        cert(5, 4, Test::NumberOut),
        cert(5, 13, Test::OptionalOut),
        cert(5, 14, Test::OptionalOut),
        cert(5, 16, Test::PartOptional(15)),
        cert(5, 17, Test::PartOptional(15)),
        cert(5, 18, Test::PartOptional(15)),
        cert(5, 20, Test::PartNumber(19)),
    ];
    each_line(lent, f, &lines)
}

// Ranges of certificates.
fn cert_ranges_out(lent: Lent, f: Option<Fault>) -> Option<Fault>
    ensures { result ≡ found_each (found_in lent.entry.words.now lent.entry.bytes.now) f cert_ranges_out }
{
    let lines = [
        cert(5, 7, Test::RangeOut(RDNS)),
        cert(5, 9, Test::RangeOut(RDNS)),
        cert(5, 22, Test::PartRange(21, USAGES)),
        cert(5, 31, Test::PartRange(30, NAMES)),
        cert(5, 34, Test::PartRange(33, NAMES)),
        cert(5, 36, Test::PartRange(33, NAMES)),
    ];
    each_line(lent, f, &lines)
}

// Codes above their ranges.
fn codes_over(lent: Lent, f: Option<Fault>) -> Option<Fault>
    ensures { result ≡ found_each (found_in lent.entry.words.now lent.entry.bytes.now) f codes_over }
{
    let lines = [
        rows(6, NAMES, 0, Test::Over(4)),
        rows(6, USAGES, 0, Test::Over(7)),
        cert(6, 1, Test::Over(4294967295)),
        cert(6, 11, Test::Over(2)),
        cert(6, 25, Test::PartOver(24, 1)),
        cert(6, 26, Test::PartOver(24, 1)),
        cert(6, 29, Test::PartOver(28, 511)),
        cert(6, 40, Test::Extensions),
    ];
    each_line(lent, f, &lines)
}

// Marks of the nine parts.
fn marks_over(lent: Lent, f: Option<Fault>) -> Option<Fault>
    ensures { result ≡ found_each (found_in lent.entry.words.now lent.entry.bytes.now) f marks_over }
{
    let lines = [
        cert(6, 15, Test::Over(3)),
        cert(6, 19, Test::Over(3)),
        cert(6, 21, Test::Over(3)),
        cert(6, 24, Test::Over(3)),
        cert(6, 28, Test::Over(3)),
        cert(6, 30, Test::Over(3)),
        cert(6, 33, Test::Over(3)),
        cert(6, 38, Test::Over(3)),
        cert(6, 39, Test::Over(3)),
    ];
    each_line(lent, f, &lines)
}

// Bytes over 127, and the purpose.
fn names_high(lent: Lent, f: Option<Fault>) -> Option<Fault>
    ensures { result ≡ found_each (found_in lent.entry.words.now lent.entry.bytes.now) f names_high }
{
    let lines = [
        header(7, 13, Test::OptionalHigh),
        rows(7, ATTRIBUTES, 1, Test::NumberHigh),
        rows(7, NAMES, 1, Test::DnsHigh),
        header(8, 14, Test::NotZero),
    ];
    each_line(lent, f, &lines)
}

// Numbers and ranges of a policy bundle.
fn lists_out(lent: Lent, f: Option<Fault>) -> Option<Fault>
    ensures { result ≡ found_each (found_in lent.entry.words.now lent.entry.bytes.now) f lists_out }
{
    let lines = [
        rows(5, STRINGS, 0, Test::StringOut),
        rows(5, ENTRIES, 0, Test::NumberOut),
        header(5, 5, Test::RangeOut(ENTRIES)),
        header(5, 7, Test::RangeOut(ENTRIES)),
        header(5, 9, Test::RangeOut(ENTRIES)),
        header(5, 11, Test::RangeOut(ENTRIES)),
        header(5, 13, Test::RangeOut(ENTRIES)),
        header(5, 15, Test::RangeOut(ENTRIES)),
        header(5, 17, Test::RangeOut(ENTRIES)),
        header(5, 19, Test::RangeOut(ENTRIES)),
        header(5, 21, Test::RangeOut(ENTRIES)),
    ];
    each_line(lent, f, &lines)
}

// Bytes over 127 in the lists of names.
fn entries_high(lent: Lent, f: Option<Fault>) -> Option<Fault>
    ensures { result ≡ found_each (found_in lent.entry.words.now lent.entry.bytes.now) f entries_high }
{
    let lines = [listed(5), listed(17), listed(21)];
    each_line(lent, f, &lines)
}

// The first wrong word of a chain bundle's rows.
pub fn chain_wrong(chain: Lent) -> Option<Fault>
    ensures { result ≡ found_each (found_in chain.entry.words.now chain.entry.bytes.now) None chain_lines }
{
    let f = tables_out(chain, None);
    let f = cert_strings_out(chain, f);
    let f = cert_ranges_out(chain, f);
    let f = codes_over(chain, f);
    let f = marks_over(chain, f);
    names_high(chain, f)
}

// The same of a policy bundle.
pub fn policy_wrong(lists: Lent) -> Option<Fault>
    ensures { result ≡ found_each (found_in lists.entry.words.now lists.entry.bytes.now) None policy_lines }
{
    let f = lists_out(lists, None);
    entries_high(lists, f)
}
