// Judges the cases of the file `cases` through the C boundary's functions, and compares every word of the answers and the reports with those that an independent judge gave (rust/compare/src/list.rs). It stops at the first difference, which it writes, and writes how many cases agreed before, by policy and answer.
//
// The file is a row of cases. Its numbers have eight bytes each, the low byte first. A case is
// - the chain's bundle, and then the policy's, as `data_file` reads them; for OpenSSL the policy's is empty;
// - three numbers: the policy (0 OpenSSL, 1 Chrome), the words lent for the report, how many words follow;
// - the eight words of the answer, the words written in the report.
#![tactic(auto)]

use data_file::Ended;
use std::io::{self, Write};
use table::Lent;

// What stands in each word of a report before a judgement. No judge writes this number.
const UNWRITTEN: u32 = 2779096485;

// The same, as a word of a case.
const UNWRITTEN_WORD: u64 = UNWRITTEN as u64;

// Room for a bundle: one word and one byte more than it may have, so that it can be too large. Each program has its own: to lend an array of any size needs a bound on the size, which no public function may ask for.
#[derive(Drop)]
struct Room {
    words: [u64; 8193],
    bytes: [u8; 65537],
}

impl Room {
    // Room that holds zeros alone.
    fn new() -> Room {
        Room {
            words: [0; 8193],
            bytes: [0; 65537],
        }
    }

    // Reads a bundle to its start, and gives it as a judge takes it.
    fn read<R: io::Read>(&mut self, file: &mut R) -> Result<Lent<'_, '_>, Ended> {
        let size = data_file::read_bundle(file, &mut self.words, &mut self.bytes)?;
        Ok(Lent {
            words: data_file::words_to(&self.words, size.words),
            bytes: table::cut(&self.bytes, 0, size.bytes as u64),
        })
    }
}

// A case: the policy, what is judged, the words lent for the report; the answer that is due, and the report behind it. The policy stays a number: each but 0 is judged as Chrome's, and what isn't 0 or 1 is not counted.
#[derive(Drop)]
struct Case<'a> {
    policy: u64,
    chain: Lent<'a, 'a>,
    lists: Lent<'a, 'a>,
    room: u64,
    due: [u64; 1308],
}

// How many cases agreed, by the answer's number: OpenSSL's, Chrome's, Chrome's on the policy's bundle.
#[derive(Default, Drop)]
struct Counts {
    openssl: [u64; 9],
    chrome: [u64; 9],
    lists: [u64; 9],
}

impl Counts {
    // Counts an answer. One by OpenSSL's policy never speaks of the policy's bundle.
    fn add(&mut self, policy: u64, answer: &[u64; 8]) {
        let number = answer[0];
        match (policy, answer[1]) {
            (0, _) => count(&mut self.openssl, number),
            (1, 0) => count(&mut self.chrome, number),
            (1, 1) => count(&mut self.lists, number),
            _ => {}
        }
    }

    // Writes the three lists, each name before its counts.
    fn print<W: Write>(&self, out: &mut W) -> io::Result<()> {
        print_counts(out, "OpenSSL", &self.openssl)?;
        print_counts(out, "Chrome", &self.chrome)?;
        print_counts(out, "Chrome on the policy", &self.lists)
    }
}

// Counts an answer's number, where it has one of the nine.
fn count(counts: &mut [u64; 9], number: u64) {
    if let Some(n) = counts.get_mut(number as usize) {
        *n = n.saturating_add(1);
    }
}

// Writes a line for each number.
fn print_counts<W: Write>(out: &mut W, name: &str, counts: &[u64; 9]) -> io::Result<()> {
    for (number, count) in counts.iter().enumerate() {
        writeln!(out, "{name} {number}: {count}")?;
    }
    Ok(())
}

// Whether the words are those that are due. The first that isn't is told.
fn is_due<T: Copy + Into<u64>, W: Write>(
    out: &mut W,
    what: &str,
    words: &[T],
    due: &[u64],
) -> io::Result<bool> {
    for (at, (word, should)) in words.iter().zip(due).enumerate() {
        let is: u64 = (*word).into();
        if is != *should {
            writeln!(out, "{what}: word, is, due: {at} {is} {should}")?;
            return Ok(false);
        }
    }
    Ok(true)
}

// Judges with as many words lent as are asked for.
fn judge(case: &Case, report: &mut [u32], answer: &mut [u64; 8]) {
    let room = (case.room as usize).min(report.len());
    let report = &mut report[..room];
    let chain = case.chain;
    let lists = case.lists;
    if case.policy == 0 {
        udrasmil::udrasmil_judge_openssl(chain.words, chain.bytes, report, answer);
    } else {
        udrasmil::udrasmil_judge_chrome(
            chain.words,
            chain.bytes,
            lists.words,
            lists.bytes,
            report,
            answer,
        );
    }
}

// Judges and compares: whether all is as it is due.
fn replay<W: Write>(out: &mut W, case: &Case, counts: &mut Counts) -> io::Result<bool> {
    let mut answer = [UNWRITTEN_WORD; 8];
    let mut report = [UNWRITTEN; 1300];
    judge(case, &mut report, &mut answer);
    if !is_due(out, "answer", &answer, &case.due[..8])? {
        return Ok(false);
    }
    if !is_due(out, "report", &report, &case.due[8..])? {
        return Ok(false);
    }
    counts.add(case.policy, &answer);
    Ok(true)
}

// Reads a case. Words of the report that aren't written are due as they were.
fn read_case<'a, R: io::Read>(
    file: &mut R,
    chain: &'a mut Room,
    lists: &'a mut Room,
) -> Result<Case<'a>, Ended> {
    let chain = chain.read(file)?;
    let lists = lists.read(file)?;
    let mut asked = [0u64; 3];
    data_file::read_words(file, &mut asked, 3)?;
    let [policy, room, words] = asked;
    let mut due = [UNWRITTEN_WORD; 1308];
    data_file::read_words(file, &mut due, words as usize)?;
    Ok(Case {
        policy,
        chain,
        lists,
        room,
        due,
    })
}

// Whether there is a next case and it agrees.
fn replay_next<R: io::Read, W: Write>(
    file: &mut R,
    out: &mut W,
    counts: &mut Counts,
) -> io::Result<bool> {
    let mut chain = Room::new();
    let mut lists = Room::new();
    match read_case(file, &mut chain, &mut lists) {
        Ok(case) => replay(out, &case, counts),
        Err(_) => Ok(false),
    }
}

// A proved loop has to end, and nothing says that a file does: it counts up to a number that no run reaches.
fn replay_all<R: io::Read, W: Write>(
    file: &mut R,
    out: &mut W,
    counts: &mut Counts,
) -> io::Result<u64> {
    for cases in 0..u64::MAX {
        if !replay_next(file, out, counts)? {
            return Ok(cases);
        }
    }
    Ok(u64::MAX)
}

fn main(rt: HostRuntime) -> io::Result<()> {
    let mut out = io::writer(&rt);
    let mut file = data_file::open(&rt, "cases")?;
    let mut counts = Counts::default();
    let cases = replay_all(&mut file, &mut out, &mut counts)?;
    counts.print(&mut out)?;
    writeln!(out, "cases: {cases}")
}
