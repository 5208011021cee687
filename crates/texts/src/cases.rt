// The texts of the input.
ghost use Rattle.std.specs.Prelude.{◌≤◌};

use job_text::read;
use std::io;
use std::io::Print;

// The words up to the last that isn't 0.
fn buffer(rt: &HostRuntime, name: &str, words: &[u16]) -> io::Result<()> {
    print!(rt; "; {name}")?;
    let used = words
        .iter()
        .rposition(|word| *word != 0)
        .map_or(0, |last| last + 1);
    for word in &words[..used] {
        print!(rt; " {word}")?;
    }
    Ok(())
}

fn number(rt: &HostRuntime, n: u32) -> io::Result<()> {
    print!(rt; " {n}")
}

// One text into three buffers that hold other words: what was read, and what the buffers then hold.
pub fn one<const A: usize, const S: usize, const W: usize>(
    rt: &HostRuntime,
    label: &[u8],
    text: &[u8],
) -> io::Result<()>
    requires algebras { A ≤ 65536 }
    requires sizes { S ≤ 65536 }
    requires weights { W ≤ 65536 }
{
    let mut algebras = [9u16; A];
    let mut sizes = [9u16; S];
    let mut weights = [9u16; W];
    let answer = read(text, &mut algebras, &mut sizes, &mut weights);
    rt.write_all(label)?;
    match answer {
        Ok(list) => {
            print!(rt; ": list of order")?;
            number(rt, u32::from(list.order))?;
            print!(rt; " jobs")?;
            number(rt, u32::from(list.jobs))?;
        }
        Err(why) => {
            print!(rt; ": refused")?;
            number(rt, u32::from(why.reason))?;
            number(rt, why.line)?;
        }
    }
    buffer(rt, "algebras", &algebras)?;
    buffer(rt, "sizes", &sizes)?;
    buffer(rt, "weights", &weights)?;
    println!(rt;)
}

// One text into buffers of the right lengths.
pub fn fresh(rt: &HostRuntime, label: &[u8], text: &[u8]) -> io::Result<()> {
    one::<16, 16, 16384>(rt, label, text)
}

// Each text behind its label. A text without an end goes on to the end of the input.
pub fn all(rt: &HostRuntime, input: &[u8]) -> io::Result<()> {
    let mut rest = input;
    while let Some(end) = rest.iter().position(|byte| *byte == b'\n') {
        let label = &rest[..end];
        let text = &rest[end + 1..];
        let end = text
            .iter()
            .position(|byte| *byte == 12)
            .unwrap_or(text.len());
        fresh(rt, label, &text[..end])?;
        rest = &text[text.len().min(end + 1)..];
    }
    Ok(())
}
