// Runs eliminations from standard input, and tries points against each table and its list. The input is little-endian words: for each job
// the limit, how many words the work area and the output have, what each of these words holds before, how many words of the output the list
// is read from, how many words the table has, the words; then the number of points and, for each, how many numbers it has, the numbers.
// A job prints a line with 0 or the refusal's number, the steps, the count of systems or the refusal's record, and how many words of the work
// area are not zero afterwards; a line with all words of the output; and for each point a line with four numbers: 0 and 1 or 0 for yes or no
// from the table, 0 and the place from the list, or in place of either a refusal's number and record.
// The run ends with the input, or at a job that is cut short or too long for the buffers; what it printed before stays.
#![tactic(auto)]

ghost use Rattle.std.specs.Prelude.{◌≡◌, ◌≤◌, length, [], ◌∷◌, IsOk};
ghost use Rattle.lines.specs.Text.{LineAdded};
ghost use Rattle.lines.specs.Written.{capacity};

use elimination_job::Heading;
use input::Words;
use lines::Text;
use std::io;
use std::io::{Read, Write};

// Adds a job's first line to the text.
fn print<W: Write>(out: &mut W, text: &mut Text<'_>, heading: Heading) -> io::Result<()>
    requires { 128 ≤ capacity text.old }
    ensures line_added { 212 ≤ text.old.free
        → IsOk result × LineAdded (heading.outcome ∷ heading.steps ∷ heading.value ∷ heading.nonzero ∷ []) text.old text.new }
    ensures capacity { capacity text.new ≡ capacity text.old }
{
    text.print_line(out, &heading.numbers())
}

// Runs the next job, and adds its first line, the line of the output, and a line for each point; answers whether the input has it whole.
fn run_job<R: Read, W: Write>(
    words: &mut Words<'_, R>,
    out: &mut W,
    table: &mut [u32],
    work: &mut [u32],
    output: &mut [u32],
    text: &mut Text<'_>,
) -> io::Result<bool>
    requires { (length work.old ≤ 262400) × (128 ≤ capacity text.old) }
    ensures { capacity text.new ≡ capacity text.old }
{
    let Some(shape) = elimination_job::read(words, table) else {
        return Ok(false);
    };
    if work.len() < shape.work || output.len() < shape.output {
        return Ok(false);
    }
    let table = &table[..shape.table];
    let output = &mut output[..shape.output];
    let heading = elimination_job::run(
        table,
        &mut work[..shape.work],
        output,
        shape.limit,
        shape.filling,
    );
    print(out, text, heading)?;
    text.print_line(out, output)?;
    let list = &output[..shape.list.min(output.len())];
    tries::run_all(words, out, table, list, shape.points, text)
}

// Runs all jobs, and writes their lines. A proved loop has to end, and nothing says that the input does: no run uses up so many turns.
fn run_jobs<R: Read, W: Write>(
    words: &mut Words<'_, R>,
    out: &mut W,
    table: &mut [u32],
    work: &mut [u32],
    output: &mut [u32],
    text: &mut Text<'_>,
) -> io::Result<()>
    requires { (length work.old ≤ 262400) × (128 ≤ capacity text.old) }
{
    for _ in 0..u64::MAX {
        if !run_job(words, out, table, work, output, text)? {
            break;
        }
    }
    text.write(out)
}

// The buffers have some more room than a table may have, and than the work area uses.
fn main(rt: HostRuntime) -> io::Result<()> {
    let mut bytes = [0u8; 65536];
    let mut text = [0u8; 65536];
    let mut table = [0u32; 262148];
    let mut work = [0u32; 262400];
    let mut output = [0u32; 262400];
    run_jobs(
        &mut Words::new(rt.stdin(), &mut bytes),
        &mut rt.stdout(),
        &mut table,
        &mut work,
        &mut output,
        &mut Text::new(&mut text),
    )
}
