// Reads of a data file: words of eight bytes each, and bytes. No contract can say what a file holds: these say what a read may change, and what it answers without one. A read that fails counts as the file's end.
#![tactic(auto)]

ghost use Rattle.std.specs.Prelude.{◌≤◌, ◌≡◌, take, length, IfOk};
ghost use Rattle.data_file.specs.DataFile.{word_of, Filled, Begins, BundleRead};

use std::io::BufReader;
use std::rt::Files;
use std::{fs, io};

// How a read ended that didn't get all that was asked for: at once, since the file had ended; or with less, since the file ended on the way or there was no room.
#[derive(Clone, Copy)]
pub enum Ended {
    Nothing,
    Less,
}

// How many words and bytes a bundle has.
#[derive(Clone, Copy)]
pub struct Size {
    pub words: usize,
    pub bytes: usize,
}

// How many values are given, and how many there are with the zeros behind them.
#[derive(Clone, Copy)]
struct Count {
    given: u64,
    all: u64,
}

// What a bundle begins with: the count of its words and that of its bytes.
#[derive(Clone, Copy)]
struct Counts {
    words: Count,
    bytes: Count,
}

// Opens a data file. One that can't be opened is named on standard error.
pub fn open<R: Files + Eprint + AllocGlobal>(rt: &R, name: &str) -> io::Result<BufReader<R::File>> {
    match fs::open(rt, name) {
        Ok(file) => BufReader::new(rt.alloc(), file),
        Err(e) => {
            eprintln!(rt; "{name}: {e}")?;
            Err(e)
        }
    }
}

// Eight bytes as a number, the low byte first.
#[tactic(auto, using(crate::proofs::Laws::low_first))]
pub fn word_of(b: [u8; 8]) -> u64
    ensures { result ≡ word_of b }
{
    u64::from_le_bytes(b)
}

// How a read ended short, by how many bytes it got.
fn ended_after(got: usize) -> Ended {
    if got == 0 {
        Ended::Nothing
    } else {
        Ended::Less
    }
}

// Reads until the bytes lent are full, the file ends or a read fails, and gives how many were read. The library's `read_exact` doesn't say how many.
fn read_full<R: io::Read>(file: &mut R, bytes: &mut [u8]) -> usize
    ensures { result ≤ length bytes.new }
{
    let mut done = 0;
    while done < bytes.len() {
        let n = file.read(&mut bytes[done..]).unwrap_or(0);
        if n == 0 {
            return done;
        }
        done += n;
    }
    done
}

// Reads one word.
fn next_word<R: io::Read>(file: &mut R) -> Result<u64, Ended> {
    let mut b = [0u8; 8];
    read_bytes(file, &mut b, 8)?;
    Ok(word_of(b))
}

// Reads n words to the start of those lent.
pub fn read_words<R: io::Read>(file: &mut R, words: &mut [u64], n: usize) -> Result<(), Ended>
    ensures { Filled n words.old words.new result }
{
    if words.len() < n {
        return Err(Ended::Less);
    }
    for i in 0..n {
        words[i] = next_word(file).map_err(|e| if i == 0 { e } else { Ended::Less })?;
    }
    Ok(())
}

// Reads n bytes to the start of those lent.
pub fn read_bytes<R: io::Read>(file: &mut R, bytes: &mut [u8], n: usize) -> Result<(), Ended>
    ensures { Filled n bytes.old bytes.new result }
{
    if bytes.len() < n {
        return Err(Ended::Less);
    }
    let got = read_full(file, &mut bytes[..n]);
    if got == n {
        Ok(())
    } else {
        Err(ended_after(got))
    }
}

// Reads what a bundle begins with.
fn read_counts<R: io::Read>(file: &mut R) -> Result<Counts, Ended> {
    let mut n = [0u64; 4];
    read_words(file, &mut n, 4)?;
    Ok(Counts {
        words: Count {
            given: n[0],
            all: n[1],
        },
        bytes: Count {
            given: n[2],
            all: n[3],
        },
    })
}

// How many values there are in all, where no more are given and all have room.
fn size_within(count: Count, room: usize) -> Result<usize, Ended>
    ensures { IfOk result (λ n. (count.given ≤ n) × (n ≤ room)) }
{
    if count.given <= count.all && count.all <= room as u64 {
        return Ok(count.all as usize);
    }
    Err(Ended::Less)
}

// Reads the words and the bytes that are given, where all have room.
fn read_given<R: io::Read>(
    file: &mut R,
    counts: Counts,
    words: &mut [u64],
    bytes: &mut [u8],
) -> Result<Size, Ended>
    ensures { IfOk result (λ s. Begins s.words words.old words.new × Begins s.bytes bytes.old bytes.new) }
{
    let size = Size {
        words: size_within(counts.words, words.len())?,
        bytes: size_within(counts.bytes, bytes.len())?,
    };
    read_words(file, words, counts.words.given as usize)?;
    read_bytes(file, bytes, counts.bytes.given as usize)?;
    Ok(size)
}

// Words and bytes are lent apart, since both are written and a Lent is read only.
// Reads a bundle to the start of the zeros lent: the words given, the words with the zeros behind them, the bytes given, the bytes with the zeros behind them; then the words and the bytes given.
pub fn read_bundle<R: io::Read>(
    file: &mut R,
    words: &mut [u64],
    bytes: &mut [u8],
) -> Result<Size, Ended>
    ensures { BundleRead words.old words.new bytes.old bytes.new result }
{
    let counts = read_counts(file)?;
    read_given(file, counts, words, bytes).map_err(|_| Ended::Less)
}

// The first n words, or all where there are fewer.
pub fn words_to(words: &[u64], n: usize) -> &[u64]
    ensures { result.now ≡ take n words.now }
{
    &words[..n.min(words.len())]
}
