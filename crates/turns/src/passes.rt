// What a pass is, counted from four before the first.
ghost use Rattle.std.specs.Prelude.{◌≡◌, ◌≤◌};
ghost use Rattle.turns.specs.Turn.{live as livePass, begins as beginsIn, sums as sumsIn};

// Whether a pass is one of `count` jobs.
pub fn live(count: usize, pass: usize) -> bool
    requires { count ≤ 16 }
    ensures { result ≡ livePass count pass }
{
    4 <= pass && pass < 4 + 4 * count
}

// Whether a pass is the first of a job.
pub fn begins(count: usize, pass: usize) -> bool
    requires { count ≤ 16 }
    ensures { result ≡ beginsIn count pass }
{
    live(count, pass) && pass % 4 == 0
}

// Whether a cell in a pass adds to its c: not in the fourth of a job.
pub fn sums(count: usize, pass: usize) -> bool
    requires { count ≤ 16 }
    ensures { result ≡ sumsIn count pass }
{
    live(count, pass) && pass % 4 < 3
}
