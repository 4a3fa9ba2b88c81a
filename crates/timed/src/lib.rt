// The check of a chain bundle for bench/sound.rs to link and time.
#![tactic(auto)]

ghost use Rattle.std.specs.Prelude.{◌≡◌};
ghost use Rattle.sound.specs.Answer.{Checked, ChainVerdict};
ghost use Rattle.timed.specs.Packed.{packed};

use sound::Place;
use table::Lent;

// The answer as one number, for C, which lends slices: 0 if the bundle is sound, else the refusal's number times 2^16 plus the word.
#[unsafe(no_mangle)]
pub extern "C" fn chain_check(words: &[u64], bytes: &[u8]) -> u64
    ensures { (c : Checked) × (ChainVerdict words.now bytes.now c × (result ≡ packed c)) }
{
    let c = sound::check_chain(Lent { words, bytes });
    match c {
        Ok(()) => 0,
        Err(r) => match r.place {
            Place::Word(p) => r.number % 16 * 65536 + (p % 65536) as u64,
            _ => 1,
        },
    }
}
