// Replays the bundles of the file `bundles` through the soundness checks, and writes how many got the answer that the file names.
//
// The file is a row of bundles as `data_file` reads them, each with four numbers behind it: which bundle it is (0 chain, 1 policy), the refusal (0 for sound), the kind of its place (0 nothing, 1 word), the word.
#![tactic(auto)]

use data_file::{Ended, Size};
use sound::{Place, Refusal};
use std::{fmt, io};
use table::Lent;

// The answer to a bundle. It stays in the numbers of the file, so that each answer that a file may name, one that no check gives too, is compared and written as it stands.
#[derive(Clone, Copy, PartialEq)]
struct Answer {
    bundle: u64,
    number: u64,
    kind: u64,
    word: u64,
}

// As a line of the output names it.
impl fmt::Display for Answer {
    fn fmt<W: fmt::Write>(&self, f: &mut fmt::Formatter<W>) -> fmt::Result {
        if self.number == 0 {
            return f.write_str("sound");
        }
        let bundle = if self.bundle == 0 { "chain" } else { "policy" };
        write!(f, "refusal {} of the {bundle} at ", self.number)?;
        match self.kind {
            0 => f.write_str("nothing"),
            1 => write!(f, "word {}", self.word),
            2 => f.write_str("a certificate"),
            _ => f.write_str("a pair"),
        }
    }
}

// How many bundles got the answer that is due, by refusal (0 for sound).
#[derive(Default, Drop)]
struct Counts {
    chain: [u64; 9],
    policy: [u64; 9],
}

impl Counts {
    // Counts an answer, where its number is one of the nine.
    fn add(&mut self, a: Answer) {
        let counts = if a.bundle == 0 {
            &mut self.chain
        } else {
            &mut self.policy
        };
        if let Some(n) = counts.get_mut(a.number as usize) {
            *n = n.saturating_add(1);
        }
    }

    // Writes a line for each number. Of refusal 1 no check of a bundle speaks.
    fn print<W: io::Write>(&self, out: &mut W) -> io::Result<()> {
        writeln!(
            out,
            "sound: chain {}, policy {}",
            self.chain[0], self.policy[0]
        )?;
        for n in 2..9 {
            writeln!(
                out,
                "refusal {n}: chain {}, policy {}",
                self.chain[n], self.policy[n]
            )?;
        }
        Ok(())
    }
}

// A refusal in the numbers of the file.
impl From<Refusal> for Answer {
    fn from(r: Refusal) -> Answer {
        let (kind, word) = match r.place {
            Place::Nothing => (0, 0),
            Place::Word(w) => (1, w as u64),
            Place::Certificate(_) => (2, 0),
            Place::Pair(_, _) => (3, 0),
        };
        Answer {
            bundle: u64::from(r.bundle),
            number: r.number,
            kind,
            word,
        }
    }
}

// What the check of a bundle answers.
fn check(bundle: u64, lent: Lent) -> Answer {
    let checked = if bundle == 0 {
        sound::check_chain(lent)
    } else {
        sound::check_policy(lent)
    };
    match checked {
        Ok(()) => Answer {
            bundle,
            number: 0,
            kind: 0,
            word: 0,
        },
        Err(r) => Answer::from(r),
    }
}

// Reads a bundle to the arrays lent, and the answer that is due.
fn read_case<R: io::Read>(
    file: &mut R,
    words: &mut [u64],
    bytes: &mut [u8],
) -> Result<(Size, Answer), Ended> {
    let size = data_file::read_bundle(file, words, bytes)?;
    let mut due = [0u64; 4];
    data_file::read_words(file, &mut due, 4).map_err(|_| Ended::Less)?;
    let [bundle, number, kind, word] = due;
    Ok((
        size,
        Answer {
            bundle,
            number,
            kind,
            word,
        },
    ))
}

// Whether the check answers what is due. Another answer is told.
fn compare<W: io::Write>(
    out: &mut W,
    index: u64,
    due: Answer,
    lent: Lent,
    counts: &mut Counts,
) -> io::Result<bool> {
    let got = check(due.bundle, lent);
    if due != got {
        writeln!(out, "bundle {index}: expected {due}, got {got}")?;
        return Ok(false);
    }
    counts.add(due);
    Ok(true)
}

// Replays the next bundle, where there is one: whether it got the answer that is due. The arrays have one word and one byte more than a check takes, so that a bundle can be too large.
fn replay_next<R: io::Read, W: io::Write>(
    file: &mut R,
    out: &mut W,
    index: u64,
    counts: &mut Counts,
) -> io::Result<Option<bool>> {
    let mut words = [0u64; 8193];
    let mut bytes = [0u8; 65537];
    match read_case(file, &mut words, &mut bytes) {
        Ok((size, due)) => {
            let lent = Lent {
                words: data_file::words_to(&words, size.words),
                bytes: table::cut(&bytes, 0, size.bytes as u64),
            };
            Ok(Some(compare(out, index, due, lent, counts)?))
        }
        Err(Ended::Nothing) => Ok(None),
        Err(Ended::Less) => {
            writeln!(out, "bundle {index} is cut off")?;
            Ok(None)
        }
    }
}

// A proved loop has to end, and nothing says that a file does: it counts up to a number that no run reaches.
fn replay_all<R: io::Read, W: io::Write>(file: &mut R, out: &mut W) -> io::Result<()> {
    let mut counts = Counts::default();
    let mut agreed = 0u64;
    let mut differed = 0u64;
    for index in 0..u64::MAX {
        match replay_next(file, out, index, &mut counts)? {
            Some(true) => agreed += 1,
            Some(false) => differed += 1,
            None => break,
        }
    }
    counts.print(out)?;
    writeln!(out, "{differed} with another answer")?;
    writeln!(out, "{} bundles, {agreed} as expected", agreed + differed)
}

fn main(rt: HostRuntime) -> io::Result<()> {
    let mut file = data_file::open(&rt, "bundles")?;
    replay_all(&mut file, &mut io::writer(&rt))
}
