// The closed table of a road file as text: a row a line, or a refusal.

#![tactic(auto)]

ghost use Rattle.std.specs.Prelude.{◌++◌, ◌≡◌, min, length, drop};
ghost use Rattle.semiring.specs.declared.Algebra.TheVariants.{Distance};
ghost use Rattle.closure.specs.Elimination.{eliminated};
ghost use Rattle.text.specs.Page.{overwritten};
ghost use Rattle.text.specs.inner.Printed.{Printed};
ghost use Rattle.road_sheet.specs.Rows.{table_text};
ghost use Rattle.road_sheet.specs.Sheet.{road_sheet_of};
ghost use Rattle.road_sheet.specs.inner.Tables.{ToClose, Rooms};

mod rows;

use paths::eliminate;
use road_text::read_road;
use rows::{put_refused, put_table};
use text::Page;

// Room for every text: the claim `Room`.
pub const PAGE_BYTES: usize = 98304;

// The table of n points, closed. It is never refused.
fn print_closed(page: &mut Page<'_>, n: usize, table: &[u16], closed: &mut [u16])
    requires { ToClose n table.now closed.old }
    ensures { Printed page.old (table_text n (eliminated Distance n table.now)) page.new }
{
    // 1 is distance.
    let Ok(()) = eliminate(1, n, table, closed) else {
        return;
    };
    put_table(page, n, closed);
}

// With buffers for the file's table and for the closed one.
fn print_file(file: &[u8], page: &mut Page<'_>, table: &mut [u16], closed: &mut [u16])
    requires { Rooms table.old closed.old }
    ensures { Printed page.old (road_sheet_of file.now) page.new }
{
    let answer = read_road(file, table);
    match answer {
        Ok(n) => {
            let words = n * n;
            print_closed(page, n, &table[..words], &mut closed[..words])
        }
        Err(reason) => put_refused(page, u32::from(reason)),
    }
}

// Prints the closed table of a road file on a page from its first byte on, as much of it as there is room for, and answers how many bytes.
pub fn print_road(file: &[u8], page: &mut [u8]) -> usize
    ensures outcome { result ≡ min (length page.old) (length (road_sheet_of file.now)) }
    ensures memory { page.new ≡ overwritten (road_sheet_of file.now) page.old }
{
    let mut table = [0u16; 16384];
    let mut closed = [0u16; 16384];
    let mut page = Page::new(page);
    print_file(file, &mut page, &mut table, &mut closed);
    page.at
}

// Prints the whole text of a road file: a page with that room holds it to its last byte.
pub fn print_road_whole(file: &[u8], room: &mut [u8; PAGE_BYTES]) -> usize
    ensures outcome { result ≡ length (road_sheet_of file.now) }
    ensures memory { room.new ≡ road_sheet_of file.now ++ drop result room.old }
{
    print_road(file, room)
}
