// Judges the chains of the file `samples` through the C boundary's functions, and writes each answer and report.
//
// The file is a row of pairs of bundles as `data_file` reads them: a chain, and the policy by which Chrome's judge takes it.
#![tactic(auto)]

use data_file::Ended;
use std::{fmt, io};
use table::Lent;

// What stands in the lent report before a judgement, so that the output shows which words were written.
const UNWRITTEN: u32 = 9;

// Room for a bundle. A judge takes no larger one. Each program has its own: to lend an array of any size needs a bound on the size, which no public function may ask for.
#[derive(Drop)]
struct Room {
    words: [u64; 8192],
    bytes: [u8; 65536],
}

impl Room {
    // Room that holds zeros alone.
    fn new() -> Room {
        Room {
            words: [0; 8192],
            bytes: [0; 65536],
        }
    }

    // Reads a bundle to its start, and gives it as a judge takes it.
    fn read<R: io::Read>(&mut self, file: &mut R) -> Result<Lent<'_, '_>, Ended> {
        let size = data_file::read_bundle(file, &mut self.words, &mut self.bytes)?;
        Ok(Lent {
            words: data_file::words_to(&self.words, size.words),
            bytes: table::cut(&self.bytes, 0, size.bytes as u64),
        })
    }
}

// Writes a line: a name, and the words behind it.
fn print_words<T: fmt::Display, W: io::Write>(
    out: &mut W,
    name: &str,
    words: &[T],
) -> io::Result<()> {
    write!(out, "{name}")?;
    for n in words {
        write!(out, " {n}")?;
    }
    writeln!(out)
}

// Judges a chain by OpenSSL's policy and by Chrome's, each with the report lent.
fn judge<W: io::Write>(
    out: &mut W,
    chain: Lent,
    lists: Lent,
    report: &mut [u32],
) -> io::Result<()> {
    let mut answer = [0u64; 8];
    report.fill(UNWRITTEN);
    udrasmil::udrasmil_judge_openssl(chain.words, chain.bytes, report, &mut answer);
    print_words(out, "OpenSSL answer", &answer)?;
    print_words(out, "report", report)?;
    report.fill(UNWRITTEN);
    udrasmil::udrasmil_judge_chrome(
        chain.words,
        chain.bytes,
        lists.words,
        lists.bytes,
        report,
        &mut answer,
    );
    print_words(out, "Chrome answer", &answer)?;
    print_words(out, "report", report)
}

// Reads a chain and the policy behind it.
fn read_pair<'a, R: io::Read>(
    file: &mut R,
    chain: &'a mut Room,
    lists: &'a mut Room,
) -> Result<(Lent<'a, 'a>, Lent<'a, 'a>), Ended> {
    Ok((chain.read(file)?, lists.read(file)?))
}

// Judges the next pair, where there is one: with room for four entries and two words, and then with room for one and two words.
fn judge_next<R: io::Read, W: io::Write>(file: &mut R, out: &mut W) -> io::Result<bool> {
    let mut chain = Room::new();
    let mut lists = Room::new();
    let Ok((chain, lists)) = read_pair(file, &mut chain, &mut lists) else {
        return Ok(false);
    };
    judge(out, chain, lists, &mut [0; 14])?;
    judge(out, chain, lists, &mut [0; 5])?;
    Ok(true)
}

// A proved loop has to end, and nothing says that a file does: it counts up to a number that no run reaches.
fn judge_all<R: io::Read, W: io::Write>(file: &mut R, out: &mut W) -> io::Result<()> {
    for _ in 0..u64::MAX {
        if !judge_next(file, out)? {
            break;
        }
    }
    Ok(())
}

fn main(rt: HostRuntime) -> io::Result<()> {
    let mut file = data_file::open(&rt, "samples")?;
    judge_all(&mut file, &mut io::writer(&rt))
}
