// The reader of job texts: line by line to an order, the jobs' algebras, their sizes and their weights.

#![tactic(auto)]

ghost use Rattle.std.specs.Prelude.{◌≡◌, ◌≤◌, length};
ghost use Rattle.refusals.specs.Answer.{answer_number};
ghost use Rattle.refusals.specs.Tests.{first};
ghost use Rattle.text.specs.Pieces.{lines};
ghost use Rattle.job_reading.specs.Steps.{go, start};
ghost use Rattle.job_reading.specs.Reading.{follow, length_tests, ReadInto};
ghost use Rattle.job_steps.specs.inner.States.{state_of, AllCleared, Ended, Followed, Owed};

mod buffers;

use buffers::clear_all;
use job_lines::advance;
use job_reading::{Due, List, Refusal, State};
use refusals::Reason;
use semiring::Algebra;
use text::until;

fn beginning() -> State
    ensures { result ≡ state_of 0 start }
{
    State {
        due: Due::List,
        order: 0,
        jobs: 0,
        algebra: Algebra::Reach,
        size: 0,
        left: 0,
        at: 0,
    }
}

// What a text answers whose last line has been read.
fn finish(s: State, line: u32) -> Result<List, Refusal>
    ensures { Ended s line result }
{
    match s.due {
        Due::Nothing => Ok(List {
            order: s.order,
            jobs: s.jobs,
        }),
        _ => Err(Refusal {
            reason: Reason::TextEnd,
            line,
        }),
    }
}

// Reads the lines into three buffers of zeros. A refusal leaves what was read before it.
// The place of the next line is kept by hand: the library's `split` has an empty piece behind the last newline, which is no line.
fn read_lines(
    text: &[u8],
    algebras: &mut [u16],
    sizes: &mut [u16],
    weights: &mut [u16],
) -> Result<List, Refusal>
    requires text_len_bound { length text.now ≤ 65536 }
    requires all_cleared { AllCleared (length algebras.old) (length sizes.old) (length weights.old) algebras.old sizes.old weights.old }
    ensures { Followed (follow 0 (lines text.now) (go start)) result
        algebras.new sizes.new weights.new }
{
    let mut s = beginning();
    let mut from = 0;
    let mut line: u32 = 0;
    while from < text.len() {
        let end = until(text, from, b'\n');
        line += 1;
        match advance(s, &text[from..end], algebras, sizes, weights) {
            Ok(after) => s = after,
            Err(reason) => return Err(Refusal { reason, line }),
        }
        from = end + 1;
    }
    finish(s, line)
}

// Reads a text within the limit into three buffers of zeros. A refusal leaves all of them 0.
fn read_within(
    text: &[u8],
    algebras: &mut [u16],
    sizes: &mut [u16],
    weights: &mut [u16],
) -> Result<List, Refusal>
    requires text_len_bound { length text.now ≤ 65536 }
    requires all_cleared { AllCleared (length algebras.old) (length sizes.old) (length weights.old) algebras.old sizes.old weights.old }
    ensures { Owed (length algebras.old) (length sizes.old) (length weights.old)
        (follow 0 (lines text.now) (go start)) result algebras.new sizes.new weights.new }
{
    let answer = read_lines(text, algebras, sizes, weights);
    if answer.is_err() {
        clear_all(algebras, sizes, weights);
    }
    answer
}

// The tests before any line.
fn length_tests(algebras: usize, sizes: usize, weights: usize, bytes: usize) -> Result<(), Reason>
    ensures { answer_number result ≡ first 0 (length_tests algebras sizes weights bytes) }
{
    if algebras != 16 || sizes != 16 || weights != 16384 {
        return Err(Reason::BufferLength);
    }
    if 65536 < bytes {
        return Err(Reason::TextLength);
    }
    Ok(())
}

// The three buffers stay apart: each step takes only those that it writes, so a struct of them would be taken apart again in `advance`.
// Reads a job text: its algebras by number, its sizes and its weights into the three buffers, unused words 0. A refusal leaves all three 0.
pub fn read(
    text: &[u8],
    algebras: &mut [u16],
    sizes: &mut [u16],
    weights: &mut [u16],
) -> Result<List, Refusal>
    ensures { ReadInto (length algebras.old) (length sizes.old) (length weights.old) text.now result
        algebras.new sizes.new weights.new }
{
    let tested = length_tests(algebras.len(), sizes.len(), weights.len(), text.len());
    clear_all(algebras, sizes, weights);
    match tested {
        Ok(()) => read_within(text, algebras, sizes, weights),
        Err(reason) => Err(Refusal { reason, line: 0 }),
    }
}
