// A table as text, row by row, and a refusal.
ghost use Rattle.text.specs.inner.Printed.{Printed};
ghost use Rattle.road_sheet.specs.Rows.{table_text, refused_text};
ghost use Rattle.road_sheet.specs.inner.Tables.{Square};

use semiring::{Distance, PathAlgebra};
use text::Page;

// A table of n points: each word with the byte after it, row by row.
pub fn put_table(page: &mut Page<'_>, n: usize, table: &[u16])
    requires { Square n table.now }
    ensures { Printed page.old (table_text n table.now) page.new }
{
    for i in 0..n {
        for j in 0..n {
            page.unless(Distance::NONE, table[i * n + j]);
            page.byte(if j + 1 == n { b'\n' } else { b' ' });
        }
    }
}

pub fn put_refused(page: &mut Page<'_>, number: u32)
    ensures { Printed page.old (refused_text number) page.new }
{
    page.text(b"(refused ");
    page.number(number);
    page.text(b")\n");
}
