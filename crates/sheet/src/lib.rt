// The printed sheet of a job text: a refusal, or the jobs' words in the order in which they leave the array.

#![tactic(auto)]

ghost use Rattle.std.specs.Prelude.{◌++◌, ◌≡◌, min, length, drop};
ghost use Rattle.text.specs.Page.{overwritten};
ghost use Rattle.text.specs.inner.Printed.{Printed};
ghost use Rattle.sheet_form.specs.Sheet.{sheet_of};

use job_list::words_before;
use job_text::read;
use sheet_lines::put_refused;
use sheet_list::print_list;
use text::Page;

// Room for every sheet: the claim `Room`.
pub const PAGE_BYTES: usize = 475157;

// With buffers for the text's algebras, sizes and weights.
fn print_text(
    text: &[u8],
    page: &mut Page<'_>,
    algebras: &mut [u16],
    sizes: &mut [u16],
    weights: &mut [u16],
)
    requires { (length algebras.old ≡ 16) × (length sizes.old ≡ 16) × (length weights.old ≡ 16384) }
    ensures { Printed page.old (sheet_of text.now) page.new }
{
    let answer = read(text, algebras, sizes, weights);
    match answer {
        Ok(list) => {
            let count = list.jobs as usize;
            let words = words_before(&sizes[..count], count);
            print_list(
                page,
                &algebras[..count],
                list.order as usize,
                &sizes[..count],
                &weights[..words],
            )
        }
        Err(why) => put_refused(page, why),
    }
}

// Prints the sheet of a job text on a page from its first byte on, as much of it as there is room for, and answers how many bytes.
pub fn print_sheet(text: &[u8], page: &mut [u8]) -> usize
    ensures outcome { result ≡ min (length page.old) (length (sheet_of text.now)) }
    ensures memory { page.new ≡ overwritten (sheet_of text.now) page.old }
{
    // A word for each job, and for each entry of theirs.
    let mut algebras = [0u16; 16];
    let mut sizes = [0u16; 16];
    let mut weights = [0u16; 16384];
    let mut page = Page::new(page);
    print_text(text, &mut page, &mut algebras, &mut sizes, &mut weights);
    page.at
}

// Prints the whole sheet of a job text: a page with that room holds it to its last byte.
pub fn print_whole(text: &[u8], room: &mut [u8; PAGE_BYTES]) -> usize
    ensures outcome { result ≡ length (sheet_of text.now) }
    ensures memory { room.new ≡ sheet_of text.now ++ drop result room.old }
{
    print_sheet(text, room)
}
