// Runs jobs on term tables from standard input, and prints one line for each: 0 or the refusal's number, then the record of a refusal,
// 1 or 0 for yes or no, the place of a system, or 0 for a table that was only read. The input is little-endian words: for each job its
// kind (0 reads a table, 1 tries a point against a table, any other against a list), how many words the table has, the words, how many
// the point has, the words. The run ends with the input, or at a job that is cut short or too long for the buffers.
#![tactic(auto)]

ghost use Rattle.std.specs.Prelude.{◌≡◌, [], ◌∷◌, ◌≤◌, length, IfSome, IsOk};
ghost use Rattle.lines.specs.Text.{LineAdded};
ghost use Rattle.lines.specs.Written.{capacity};
ghost use Rattle.table_jobs.specs.Line.{line};

use input::Words;
use lines::Text;
use numbers::Line;
use std::io;
use std::io::{Read, Write};

// What a job does with its table, and with its point if it has one.
#[derive(Clone, Copy)]
enum Kind {
    Reading,
    Trial,
    Placing,
}

// The kind as the input has it.
impl From<u32> for Kind {
    ghost use Rattle.std.specs.Prelude.{◌≡◌};
    ghost use Rattle.table_jobs.specs.Line.{kind_of};

    ghost from_gives = { λ kind k. k ≡ kind_of kind };

    fn from(kind: u32) -> Kind {
        match kind {
            0 => Kind::Reading,
            1 => Kind::Trial,
            _ => Kind::Placing,
        }
    }
}

// A job: its kind, and how many words its table and its point have.
#[derive(Clone, Copy)]
struct Job {
    kind: Kind,
    table: usize,
    point: usize,
}

// Reads the next job, its words to the start of the slices.
fn read<R: Read>(words: &mut Words<'_, R>, table: &mut [u32], point: &mut [u32]) -> Option<Job>
    ensures { IfSome result (λ job. (job.table ≤ length table.new) × (job.point ≤ length point.new)) }
{
    let kind = Kind::from(words.next()?);
    let table = words.counted(table)?;
    let point = words.counted(point)?;
    Some(Job { kind, table, point })
}

// The line of a job.
fn answer(kind: Kind, table: &[u32], numbers: &[u32]) -> Line
    ensures { result ≡ line kind table.now numbers.now }
{
    match kind {
        Kind::Reading => Line::from(reading::read_table(table).map(|_| ())),
        Kind::Trial => Line::from(points::try_table(table, numbers)),
        Kind::Placing => Line::from(lists::try_list(table, numbers)),
    }
}

// The numbers of a line, in their order.
fn numbers_of(line: Line) -> [u32; 2]
    ensures { result ≡ line.outcome ∷ line.value ∷ [] }
{
    [line.outcome, line.value]
}

// Adds a job's line to the text.
fn print<W: Write>(out: &mut W, text: &mut Text<'_>, line: Line) -> io::Result<()>
    requires { 128 ≤ capacity text.old }
    ensures line_added { 170 ≤ text.old.free → IsOk result × LineAdded (line.outcome ∷ line.value ∷ []) text.old text.new }
    ensures capacity { capacity text.new ≡ capacity text.old }
{
    text.print_line(out, &numbers_of(line))
}

// Runs all jobs, and writes their lines. A proved loop has to end, and nothing says that the input does: no run uses up so many turns.
fn run_jobs<R: Read, W: Write>(
    words: &mut Words<'_, R>,
    out: &mut W,
    table: &mut [u32],
    point: &mut [u32],
    text: &mut Text<'_>,
) -> io::Result<()>
    requires { 128 ≤ capacity text.old }
{
    for _ in 0..u64::MAX {
        let Some(job) = read(words, table, point) else {
            break;
        };
        let line = answer(job.kind, &table[..job.table], &point[..job.point]);
        print(out, text, line)?;
    }
    text.write(out)
}

// The table's buffer has room for one record more than a table may have.
fn main(rt: HostRuntime) -> io::Result<()> {
    let mut bytes = [0u8; 65536];
    let mut text = [0u8; 65536];
    let mut table = [0u32; 262148];
    let mut point = [0u32; 16];
    run_jobs(
        &mut Words::new(rt.stdin(), &mut bytes),
        &mut rt.stdout(),
        &mut table,
        &mut point,
        &mut Text::new(&mut text),
    )
}
