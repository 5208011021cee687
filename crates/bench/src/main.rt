// The bench: a job text on standard input, its sheet on standard output. A read or a write that fails is told on standard
// error; after a failed read nothing is printed.

#![tactic(auto)]

ghost use Rattle.std.specs.Prelude.{◌≡◌};
ghost use Rattle.sheet_form.specs.Sheet.{sheet_of};
ghost use Rattle.bench.specs.Printed.{ToPrint, InRoom};

use failure::tell;
use input::{Input, read_all};
use sheet::{PAGE_BYTES, print_whole};
use std::io::Print;

// Writes the sheet of a text, whole. Not one function with the road program's: what each writes is what its own clause asks.
fn write(rt: &HostRuntime, text: &[u8], sheet: &[u8])
    requires { sheet.now ≡ sheet_of text.now }
{
    if let Err(why) = rt.write_all(sheet) {
        tell(rt, "write", why);
    }
}

// Prints the sheet of an input that was read into a text: of the part that is all of it, or that decides its sheet.
// Not one function with the road program's: its sheet is another definition, and a full room means another thing there; both claims
// stand by these clauses.
fn print(rt: &HostRuntime, input: Input, text: &[u8], part: &[u8])
    requires { ToPrint text.now input part.now }
{
    let mut page = [0u8; PAGE_BYTES];
    let n = print_whole(part, &mut page);
    write(rt, part, &page[..n]);
}

fn print_input(rt: &HostRuntime, input: Input, text: &[u8])
    requires { InRoom text.now input }
{
    match input {
        Input::Ended(n) => print(rt, input, text, &text[..n]),
        Input::Full => print(rt, input, text, text),
    }
}

fn main(rt: HostRuntime) {
    // A text at the limit and one byte more, so that a longer one can be told.
    let mut text = [0u8; 65537];
    match read_all(&mut rt.stdin(), &mut text) {
        Ok(input) => print_input(&rt, input, &text),
        Err(why) => tell(&rt, "read", why),
    }
}
