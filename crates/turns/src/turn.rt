// A cell's turn: its pass, counted from four before the first, and its point in that pass. Divides once, when it is made.
ghost use Rattle.std.specs.Prelude.{◌+◌, ◌-◌, ◌*◌, ◌≤◌, ◌<◌};
ghost use Rattle.turns.specs.Turn.{At};

// The order n is no field: contracts would then say that the n of two turns are equal, wherever they now say that a point is below n.
#[derive(Clone, Copy)]
pub struct Turn {
    pub pass: usize,
    pub point: usize,
}

impl Turn {
    // The turn of step u.
    pub fn at(n: usize, u: usize) -> Turn
        requires { 1 ≤ n }
        ensures { At n u result }
    {
        Turn {
            pass: u / n,
            point: u % n,
        }
    }

    // A step on.
    pub fn next(self, n: usize) -> Turn
        requires { (self.point < n) × (n ≤ 32) × (n * self.pass + self.point ≤ 65535) }
        ensures { At n (n * self.pass + self.point + 1) result }
    {
        let Turn { pass, point } = self;
        if point + 1 < n {
            Turn {
                pass,
                point: point + 1,
            }
        } else {
            Turn {
                pass: pass + 1,
                point: 0,
            }
        }
    }

    // A step back.
    pub fn back(self, n: usize) -> Turn
        requires { (self.point < n) × (1 ≤ n * self.pass + self.point) }
        ensures { At n (n * self.pass + self.point - 1) result }
    {
        let Turn { pass, point } = self;
        if 0 < point {
            Turn {
                pass,
                point: point - 1,
            }
        } else {
            Turn {
                pass: pass - 1,
                point: n - 1,
            }
        }
    }

    // n - 1 steps back: from an edge's first cell to its last.
    pub fn to_last(self, n: usize) -> Turn
        requires { (self.point < n) × (n ≤ 32) × (1 ≤ self.pass) }
        ensures { At n (n * self.pass + self.point + 1 - n) result }
    {
        let Turn { pass, point } = self;
        if point + 1 < n {
            Turn {
                pass: pass - 1,
                point: point + 1,
            }
        } else {
            Turn { pass, point: 0 }
        }
    }
}
