// Times eliminations. The input is little-endian words: for each job the limit, how many words the work area and the output have, the
// repetitions, how many words the table has, the words. A job prints a line with the best and the mean time of a call in nanoseconds, the
// steps, and the outcome: 0 or the refusal's number. The time is the processor's, and the best is that of 16 batches of calls, since the clock
// counts microseconds. The run ends with the input, or at a job that is cut short or too long for the buffers.
#![tactic(auto)]

mod timing;

ghost use Rattle.std.specs.Prelude.{◌≡◌, ◌≤◌, length, IfSome};
ghost use Rattle.elimination.specs.Numbers.{outcome_numbers};
ghost use Rattle.lines.specs.Written.{capacity};

use elimination::{Answer, Outcome};
use input::Words;
use lines::Text;
use std::io;
use std::io::{Read, Write};
use std::time::CpuClock;
use timing::{Call, Timing};

// 0 or the refusal's number.
fn outcome_number(answer: Answer) -> u32
    ensures { result ≡ (outcome_numbers answer.outcome).outcome }
{
    let outcome = answer.outcome;
    match outcome {
        Outcome::Systems(_) => 0,
        Outcome::Refused(why, _) => u32::from(why),
    }
}

// Adds a line to the text.
fn print<W: Write>(
    out: &mut W,
    text: &mut Text<'_>,
    timing: Timing,
    answer: Answer,
) -> io::Result<()>
    requires { 128 ≤ capacity text.old }
    ensures { capacity text.new ≡ capacity text.old }
{
    text.room(out)?;
    text.put_number(timing.best);
    text.put_byte(b' ');
    text.put_number(timing.mean);
    text.put_byte(b' ');
    text.print_line(out, &[answer.steps, outcome_number(answer)])
}

// What a job asks: the limit, the repetitions, and how many words the table, the work area and the output have.
#[derive(Clone, Copy)]
struct Shape {
    limit: u32,
    repetitions: u32,
    table: usize,
    work: usize,
    output: usize,
}

// Reads the next job, its table to the start of the slice.
fn read<R: Read>(words: &mut Words<'_, R>, table: &mut [u32]) -> Option<Shape>
    ensures { IfSome result (λ shape. shape.table ≤ length table.new) }
{
    let limit = words.next()?;
    let work = words.next()? as usize;
    let output = words.next()? as usize;
    let repetitions = words.next()?;
    let table = words.counted(table)?;
    Some(Shape {
        limit,
        repetitions,
        table,
        work,
        output,
    })
}

// Runs all jobs, and writes their lines. A proved loop has to end, and nothing says that the input does: no run uses up so many turns.
fn run_jobs<C: CpuClock, R: Read, W: Write>(
    clock: &C,
    words: &mut Words<'_, R>,
    out: &mut W,
    table: &mut [u32],
    work: &mut [u32],
    output: &mut [u32],
    text: &mut Text<'_>,
) -> io::Result<()>
    requires { 128 ≤ capacity text.old }
{
    for _ in 0..u64::MAX {
        let Some(shape) = read(words, table) else {
            break;
        };
        if work.len() < shape.work || output.len() < shape.output {
            break;
        }
        let mut call = Call {
            table: &table[..shape.table],
            work: &mut work[..shape.work],
            output: &mut output[..shape.output],
            limit: shape.limit,
        };
        let timing = timing::measure(clock, &mut call, shape.repetitions);
        let answer = call.eliminate();
        print(out, text, timing, answer)?;
    }
    text.write(out)
}

// The table's buffer has room for one record more than a table may have, the other two for 64 more.
fn main(rt: HostRuntime) -> io::Result<()> {
    let mut bytes = [0u8; 65536];
    let mut text = [0u8; 65536];
    let mut table = [0u32; 262148];
    let mut work = [0u32; 262400];
    let mut output = [0u32; 262400];
    run_jobs(
        &rt,
        &mut Words::new(rt.stdin(), &mut bytes),
        &mut rt.stdout(),
        &mut table,
        &mut work,
        &mut output,
        &mut Text::new(&mut text),
    )
}
