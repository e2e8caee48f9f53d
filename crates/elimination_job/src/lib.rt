// A job of `elimination_jobs`: its shape, read from the input; its run; its first line.
#![tactic(auto)]

ghost use Rattle.std.specs.Prelude.{◌≡◌, [], ◌∷◌, ◌≤◌, length, replicate, IfSome};
ghost use Rattle.rules.specs.Eliminate.{eliminated, output_after};
ghost use Rattle.delivery.specs.Answer.{answer_of};
ghost use Rattle.elimination_job.specs.Heading.{heading_of, nonzero};

use elimination::{Answer, Outcome};
use input::Words;
use std::io::Read;

// What a job asks: words of the table, of the work area and of the output; what the latter two hold before; the words that the list is read
// from; the number of points.
#[derive(Clone, Copy)]
pub struct Shape {
    pub limit: u32,
    pub table: usize,
    pub work: usize,
    pub output: usize,
    pub filling: u32,
    pub list: usize,
    pub points: u32,
}

// The first line of a job.
#[derive(Clone, Copy)]
pub struct Heading {
    pub outcome: u32,
    pub steps: u32,
    pub value: u32,
    pub nonzero: u32,
}

impl Heading {
    // The numbers of the line, in their order.
    pub fn numbers(self) -> [u32; 4]
        ensures { result ≡ self.outcome ∷ self.steps ∷ self.value ∷ self.nonzero ∷ [] }
    {
        [self.outcome, self.steps, self.value, self.nonzero]
    }
}

// Reads the next job up to its points, its table to the start of the slice.
pub fn read<R: Read>(words: &mut Words<'_, R>, table: &mut [u32]) -> Option<Shape>
    ensures shape { IfSome result (λ shape. shape.table ≤ length table.new) }
    ensures capacity { length words.new.bytes ≡ length words.old.bytes }
{
    let limit = words.next()?;
    let work = words.next()? as usize;
    let output = words.next()? as usize;
    let filling = words.next()?;
    let list = words.next()? as usize;
    let table = words.counted(table)?;
    let points = words.next()?;
    Some(Shape {
        limit,
        table,
        work,
        output,
        filling,
        list,
        points,
    })
}

// How many words are not zero.
fn count_nonzero(words: &[u32]) -> usize
    ensures { (result ≡ nonzero words.now) × (result ≤ length words.now) }
{
    words.iter().filter(|x| **x != 0).count()
}

// The first line, by an answer and the count of words of the work area that are not zero.
fn head_of(answer: Answer, count: u32) -> Heading
    ensures { result ≡ heading_of answer count }
{
    let outcome = answer.outcome;
    match outcome {
        Outcome::Systems(systems) => Heading {
            outcome: 0,
            steps: answer.steps,
            value: systems,
            nonzero: count,
        },
        Outcome::Refused(why, record) => Heading {
            outcome: u32::from(why),
            steps: answer.steps,
            value: record,
            nonzero: count,
        },
    }
}

// Eliminates the table, where each word of the work area and of the output holds `filling` before.
pub fn run(table: &[u32], work: &mut [u32], output: &mut [u32], limit: u32, filling: u32) -> Heading
    requires { length work.old ≤ 262400 }
    ensures value { result ≡ heading_of (answer_of (eliminated table.now (length work.old) (length output.old) limit)) 0 }
    ensures output_after { output.new ≡ output_after (eliminated table.now (length work.old) (length output.old) limit)
        (replicate (length output.old) filling) }
    ensures work_cleared { work.new ≡ replicate (length work.old) 0 }
{
    work.fill(filling);
    output.fill(filling);
    let answer = elimination::eliminate(table, work, output, limit);
    head_of(answer, count_nonzero(work) as u32)
}
