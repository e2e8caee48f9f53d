// Points against a table and its list, tried for `elimination_jobs`.
#![tactic(auto)]

ghost use Rattle.std.specs.Prelude.{◌≡◌, [], ◌∷◌, ◌≤◌, length, IsOk};
ghost use Rattle.lines.specs.Text.{LineAdded};
ghost use Rattle.lines.specs.Written.{capacity};
ghost use Rattle.tries.specs.Tried.{tried};

use input::Words;
use lines::Text;
use numbers::Line;
use std::io;
use std::io::{Read, Write};

// What the table and what the list answer.
#[derive(Clone, Copy)]
pub struct Tried {
    pub trial: Line,
    pub place: Line,
}

impl Tried {
    // The numbers of a point's line, in their order.
    fn numbers(self) -> [u32; 4]
        ensures { result ≡ self.trial.outcome ∷ self.trial.value ∷ self.place.outcome ∷ self.place.value ∷ [] }
    {
        let Tried { trial, place } = self;
        [trial.outcome, trial.value, place.outcome, place.value]
    }
}

// Tries a point against both.
#[tactic(auto, unfolding(crate::specs::Tried::tried))]
fn try_both(table: &[u32], systems: &[u32], numbers: &[u32]) -> Tried
    ensures { result ≡ tried table.now systems.now numbers.now }
{
    Tried {
        trial: Line::from(points::try_table(table, numbers)),
        place: Line::from(lists::try_list(systems, numbers)),
    }
}

// Adds a point's line to the text.
fn print<W: Write>(out: &mut W, text: &mut Text<'_>, tried: Tried) -> io::Result<()>
    requires { 128 ≤ capacity text.old }
    ensures line_added { 212 ≤ text.old.free
        → IsOk result × LineAdded (tried.trial.outcome ∷ tried.trial.value ∷ tried.place.outcome ∷ tried.place.value ∷ []) text.old text.new }
    ensures capacity { capacity text.new ≡ capacity text.old }
{
    text.print_line(out, &tried.numbers())
}

// Tries so many points of at most 16 numbers, and adds a line for each; answers whether the input has them all.
pub fn run_all<R: Read, W: Write>(
    words: &mut Words<'_, R>,
    out: &mut W,
    table: &[u32],
    systems: &[u32],
    count: u32,
    text: &mut Text<'_>,
) -> io::Result<bool>
    requires { 128 ≤ capacity text.old }
    ensures room { capacity text.new ≡ capacity text.old }
    ensures buffer { length words.new.bytes ≡ length words.old.bytes }
{
    let mut point = [0u32; 16];
    for _ in 0..count {
        let Some(n) = words.counted(&mut point) else {
            return Ok(false);
        };
        let tried = try_both(table, systems, &point[..n]);
        print(out, text, tried)?;
    }
    Ok(true)
}
