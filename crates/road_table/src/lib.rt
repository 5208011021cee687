// The distance table of a road file's arcs, in a lent buffer.

#![tactic(auto)]

ghost use Rattle.std.specs.Prelude.{◌≡◌};
ghost use Rattle.road_table.specs.Table.{held};
ghost use Rattle.road_table.specs.inner.Held.{Room, DiagonalCleared, Begun, Joinable, Joined};

use road_form::Arc;
use semiring::{Distance, PathAlgebra};

fn clear_diagonal(table: &mut [u16], points: usize)
    requires { Room points table.old }
    ensures { DiagonalCleared points points table.old table.new }
{
    for i in 0..points {
        table[i * points + i] = 0;
    }
}

// The table of points with no arc, over zeros: none, and 0 from each point to itself.
pub fn begin(table: &mut [u16], points: usize)
    requires { Room points table.old }
    ensures { Begun points table.old table.new }
{
    table[..points * points].fill(Distance::NONE);
    clear_diagonal(table, points);
}

// The length of an arc as a word: far from 65534 on.
fn held_length(weight: u64) -> u16
    ensures { result ≡ held weight }
{
    weight.min(65534) as u16
}

// One arc more. An arc from a point to itself meets the 0 of the diagonal, which stands.
pub fn join(table: &mut [u16], points: usize, arc: Arc)
    requires { Joinable points arc table.old }
    ensures { Joined points arc table.old table.new }
{
    let row = (arc.from - 1) as usize;
    let column = (arc.to - 1) as usize;
    let at = row * points + column;
    table[at] = Distance::sum(table[at], held_length(arc.length));
}
