// The table view: the lent words of a bundle together with the rows that are still to be read. A function over a view only takes it apart and leaves the work to one with plain parameters.
#![tactic(auto)]

ghost use Rattle.std.specs.Prelude.{◌≡◌};
ghost use Rattle.view.specs.Shown.{rows_of, view_of, head_of, rest_of, some_word};

use table::{Range, Section};

// Rows of a section, from the first that is still to be read.
#[derive(Clone, Copy)]
pub struct Rows {
    pub section: Section,
    pub range: Range,
}

// The lent words, and the place in them: the view stands at the first of its rows.
#[derive(Clone, Copy)]
pub struct View<'a> {
    pub words: &'a [u64],
    pub rows: Rows,
}

// Word j of the first of some rows, or 0 where that lies past the end.
fn head(words: &[u64], r: Rows, j: u64) -> u64
    ensures { result ≡ head_of words.now r j }
{
    let section = r.section;
    let range = r.range;
    let row = range.from;
    table::field(words, section, row, j)
}

// The rows after the first. Where none is left they stay, so that no sum wraps.
fn rest(r: Rows) -> Rows
    ensures { result ≡ rest_of r }
{
    let section = r.section;
    let range = r.range;
    let from = range.from;
    let to = range.to;
    if from < to {
        return Rows {
            section,
            range: Range { from: from + 1, to },
        };
    }
    r
}

// A view of the rows of a range, at the first of them.
pub fn over<'a>(words: &'a [u64], s: Section, r: Range) -> View<'a>
    ensures { result ≡ view_of words.entry (rows_of s r) }
{
    View {
        words,
        rows: Rows {
            section: s,
            range: r,
        },
    }
}

// Word j of the row at which a view stands.
pub fn word<'a>(v: View<'a>, j: u64) -> u64
    ensures { result ≡ head_of v.entry.words.now v.entry.rows j }
{
    head(v.words, v.rows, j)
}

// The view at the next row.
pub fn next<'a>(v: View<'a>) -> View<'a>
    ensures { result ≡ view_of v.entry.words (rest_of v.entry.rows) }
{
    View {
        words: v.words,
        rows: rest(v.rows),
    }
}

// Whether some row of a range has x as its word j. The rows are read through a view, one after the other; whoever asks sees no view.
// The loop stays: it steps the view, which document 01 names, and counts no index.
pub fn some_word(words: &[u64], s: Section, r: Range, j: u64, x: u64) -> bool
    ensures { result ≡ some_word words.now s r j x }
{
    let mut v = over(words, s, r);
    while v.rows.range.from < v.rows.range.to {
        if word(v, j) == x {
            return true;
        }
        v = next(v);
    }
    false
}
