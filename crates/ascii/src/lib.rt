// Single bytes: their classes, their lower-case form, and whether the bytes of a text are of a class.
#![tactic(auto)]

pub mod byte_table;

ghost use Rattle.std.specs.Prelude.{◌≡◌, ◌+◌, ◌≤◌, eqb, length, get_or};
ghost use Rattle.laws.specs.Lists.{numbers, any, all};
ghost use Rattle.ascii.specs.Bytes.{is_high, is_host_byte, lower_byte, class_of, whole_table};

// The classes of bytes that somebody asks for. They stay numbers: the table, a form that document 01 names, holds them as such (`whole_table`).
pub const LETTER: u8 = 1;

pub const DOT: u8 = 4;

pub const STAR: u8 = 5;

pub const SPACE: u8 = 6;

// The lower-case form of a byte, as the library has it. It is the table's, told without it: a loop that looks into the table fetches the whole of it first, and texts are short.
pub fn lower(x: u8) -> u8
    ensures { result ≡ lower_byte x }
{
    x.to_ascii_lowercase()
}

// The class that a table holds for a byte.
fn class_in(table: &[u16; 256], x: u8) -> u8
    ensures { table.now ≡ whole_table → result ≡ class_of x }
{
    (byte_table::entry_in(table, x) / 256) as u8
}

// The class of a byte.
pub fn class_of(x: u8) -> u8
    ensures { result ≡ class_of x }
{
    class_in(&byte_table::whole(), x)
}

// Whether some byte of a text is of a class.
pub fn has_class(s: &[u8], class: u8) -> bool
    ensures { result ≡ any (λ x. eqb (class_of x) class) s.now }
{
    let table = byte_table::whole();
    s.iter().any(|x| class_in(&table, *x) == class)
}

// Whether one of the eight bytes from i on is no ASCII character.
fn has_high_eight(s: &[u8], i: usize) -> bool
    requires { i + 8 ≤ length s.now }
    ensures { result ≡ any (λ k. is_high (get_or s.now k 0)) (numbers i (i + 8)) }
{
    (128 <= s[i])
        | (128 <= s[i + 1])
        | (128 <= s[i + 2])
        | (128 <= s[i + 3])
        | (128 <= s[i + 4])
        | (128 <= s[i + 5])
        | (128 <= s[i + 6])
        | (128 <= s[i + 7])
}

// Whether one of a few bytes is no ASCII character.
fn has_high_few(s: &[u8]) -> bool
    ensures { result ≡ any is_high s.now }
{
    s.iter().fold(false, |high, x| high | !x.is_ascii())
}

// Whether some byte is no ASCII character. Most texts are short, so that they are looked at by eight bytes; the last eight may meet those before them.
// The loop stays: the chain of has_high_few over the whole takes 6.4 to 8.0 ns for a text of 2 to 40 bytes where this takes 5.6, and texts are most of the check's work.
pub fn has_high(s: &[u8]) -> bool
    ensures { result ≡ any is_high s.now }
{
    if s.len() < 8 {
        return has_high_few(s);
    }
    let last = s.len() - 8;
    let mut i = 0;
    while i < last {
        if has_high_eight(s, i) {
            return true;
        }
        i += 8;
    }
    has_high_eight(s, last)
}

// Whether each byte is one of those that a host name is made of.
pub fn all_host_bytes(s: &[u8]) -> bool
    ensures { result ≡ all is_host_byte s.now }
{
    let table = byte_table::whole();
    s.iter()
        .all(|x| (LETTER..=DOT).contains(&class_in(&table, *x)))
}
