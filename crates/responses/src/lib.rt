// What `triangularize` prints for the bytes it reads.
#![tactic(auto)]

ghost use Rattle.std.specs.Prelude.{◌≡◌, ◌*◌, ◌≤◌, length};
ghost use Rattle.lines.specs.Written.{Adds};
ghost use Rattle.responses.specs.Response.{response};
ghost use Rattle.responses.specs.Responded.{Responded};
ghost use Rattle.responses.specs.Said.{records_text, said};

use elimination::{Answer, Outcome};
use lines::Text;

// Adds a line for each of the first n records of a list.
fn put_records(text: &mut Text<'_>, list: &[u32], n: usize)
    requires { (4 * n ≤ length list.now) × (85 * n ≤ text.old.free) }
    ensures { Adds (records_text list.now 0 n) text.old text.new }
{
    for i in 0..n {
        let from = 4 * i;
        let to = from + 4;
        text.put_line(&list[from..to]);
    }
}

// Adds the text of an answer.
fn put_answer(text: &mut Text<'_>, answer: Answer, output: &[u32])
    requires { (length output.now ≤ 16384) × (348352 ≤ text.old.free) }
    ensures { Adds (said answer output.now) text.old text.new }
{
    let outcome = answer.outcome;
    match outcome {
        Outcome::Refused(why, record) => {
            let first = [u32::from(why), answer.steps, record];
            text.put_line(&first);
        }
        Outcome::Systems(count) => {
            let first = [0, answer.steps, count];
            text.put_line(&first);
            put_records(text, output, extent::written_records(output));
        }
    }
}

// The bytes of 4,096 records.
const LONGEST: usize = 65536;

// Adds the text for the bytes read. More bytes than 4,096 records have, or a broken last word, are refusal 1.
pub fn respond(
    bytes: &[u8],
    words: &mut [u32],
    work: &mut [u32],
    output: &mut [u32],
    text: &mut Text<'_>,
)
    requires { (16384 ≡ length words.old) × (16384 ≡ length work.old) × (16384 ≡ length output.old) × (348352 ≤ text.old.free) }
    ensures response_made { Adds (response bytes.now) text.old text.new }
    ensures responded { Responded bytes.now words.old work.old output.old words.new work.new output.new }
{
    // The line of refusal 1: its number, the steps, the record.
    let refused = [1, 0, 0];
    if LONGEST < bytes.len() {
        work.fill(0);
        return text.put_line(&refused);
    }
    if bytes.len() % 4 != 0 {
        work.fill(0);
        return text.put_line(&refused);
    }
    decoding::decode(bytes, words);
    let n = bytes.len() / 4;
    let answer = elimination::eliminate(&words[..n], work, output, 100000);
    put_answer(text, answer, output);
}
