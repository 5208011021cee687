// The elimination: a table laid out with its diagonal set, then closed in place, two points at a time.

#![tactic(auto)]

ghost use Rattle.std.specs.Prelude.{◌*◌, ◌≡◌};
ghost use Rattle.closure.specs.Elimination.{eliminated};
ghost use Rattle.table_layout.specs.LaidOut.{ToLayOut};

mod passes;

pub use passes::close;
use semiring::Algebra;
use table_layout::lay_out;

// The elimination of the links, into a table.
pub fn eliminate(a: Algebra, n: usize, links: &[u16], table: &mut [u16])
    requires { ToLayOut n (n * n) links.now table.old }
    ensures { table.new ≡ eliminated a n links.now }
{
    let cells = n * n;
    lay_out(a, n, cells, links, table);
    close(a, n, table);
}
