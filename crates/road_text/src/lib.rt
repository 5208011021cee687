// The reader of road files: the text form of the ninth DIMACS shortest path challenge, read into a distance table.

#![tactic(auto)]

ghost use Rattle.std.specs.Prelude.{length};
ghost use Rattle.road_table.specs.inner.Held.{Cleared};
ghost use Rattle.road_text.specs.Reading.{RoadRead};
ghost use Rattle.road_text.specs.inner.Kept.{Ended, Followed, Owed};

mod progress;
mod steps;

use memory::clear;
use progress::Progress;
use refusals::Reason;
use road_form::read_line;
use steps::advance;

// Room for the largest table: 128 rows of 128 words.
const TABLE_WORDS: usize = 16384;

// What a file answers whose last line has been read.
fn finish(s: Progress) -> Result<usize, Reason>
    ensures { Ended s result }
{
    if s.points < 1 {
        return Err(Reason::RoadForm);
    }
    if s.count != s.arcs {
        return Err(Reason::RoadCount);
    }
    Ok(s.points)
}

// Reads the lines into a table of zeros. A refusal leaves what was read before it.
fn read_lines(file: &[u8], table: &mut [u16]) -> Result<usize, Reason>
    requires { Cleared 16384 table.old }
    ensures { Followed file.now result table.new }
{
    let mut s = Progress::default();
    let mut from = 0;
    // no `for`: it goes from line to line, and only a line that was read says where the next begins
    while from < file.len() {
        let said = read_line(&file[from..]);
        s = advance(s, said.line, table)?;
        from += said.end + 1;
    }
    finish(s)
}

// Reads a file into a table of zeros. A refusal leaves it 0.
fn read_cleared(file: &[u8], table: &mut [u16]) -> Result<usize, Reason>
    requires { Cleared 16384 table.old }
    ensures { Owed file.now result table.new }
{
    let answer = read_lines(file, table);
    if answer.is_err() {
        clear(table);
    }
    answer
}

// Reads a road file and answers POINTS: its distance table into the buffer, row by row, unused words 0. A refusal leaves the buffer 0.
pub fn read_road(file: &[u8], table: &mut [u16]) -> Result<usize, Reason>
    ensures { RoadRead (length table.old) file.now result table.new }
{
    clear(table);
    if table.len() != TABLE_WORDS {
        return Err(Reason::RoadForm);
    }
    read_cleared(file, table)
}
