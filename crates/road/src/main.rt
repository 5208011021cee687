// A road file on standard input, its closed table on standard output. A read or a write that fails and a file longer than the
// buffer are told on standard error; after a failed read and for a longer file nothing is printed.

#![tactic(auto)]

ghost use Rattle.std.specs.Prelude.{◌≡◌, length};
ghost use Rattle.road_sheet.specs.Sheet.{road_sheet_of};
ghost use Rattle.road.specs.Printed.{ToPrint, ToTell, InRoom};

use failure::tell;
use input::{Input, read_all};
use road_sheet::{PAGE_BYTES, print_road_whole};
use std::io::Print;

// Room for the longest file, 1,048,576 bytes, and one byte more, so that a longer one can be told.
// Written in `main` it was tried, and the proof didn't close: the checker counts the bytes out and runs out of stack.
fn file_room() -> [u8; 1048577]
    ensures { length result ≡ 1048577 }
{
    [0u8; 1048577]
}

// Writes what is printed for a file, whole. Not one function with the bench's: what each writes is what its own clause asks.
fn write(rt: &HostRuntime, file: &[u8], text: &[u8])
    requires { text.now ≡ road_sheet_of file.now }
{
    if let Err(why) = rt.write_all(text) {
        tell(rt, "write", why);
    }
}

// Prints what a file gives that was read whole into a buffer.
// Not one function with the bench's: its sheet is another definition, and a full room means another thing there; both claims stand by
// these clauses.
fn print(rt: &HostRuntime, input: Input, buffer: &[u8], file: &[u8])
    requires { ToPrint buffer.now input file.now }
{
    let mut page = [0u8; PAGE_BYTES];
    let n = print_road_whole(file, &mut page);
    write(rt, file, &page[..n]);
}

fn tell_longer(rt: &HostRuntime, input: Input, buffer: &[u8])
    requires { ToTell buffer.now input }
{
    let _ = eprintln!(rt; "road: the file is longer than 1048576 bytes");
}

fn print_input(rt: &HostRuntime, input: Input, buffer: &[u8])
    requires { InRoom buffer.now input }
{
    match input {
        Input::Ended(n) => print(rt, input, buffer, &buffer[..n]),
        Input::Full => tell_longer(rt, input, buffer),
    }
}

fn main(rt: HostRuntime) {
    let mut buffer = file_room();
    match read_all(&mut rt.stdin(), &mut buffer) {
        Ok(input) => print_input(&rt, input, &buffer),
        Err(why) => tell(&rt, "read", why),
    }
}
