// Levels of points backwards from a target: the target has level 1, and a point without a level gets r + 1 where the link from
// it to a point of level r keeps its word in the closed table.
ghost use Rattle.std.specs.Prelude.{◌≤◌, ◌<◌};
ghost use Rattle.levels.specs.inner.Search.{Seen, Visited, Met, Linked, Searched, LevelDone, Ended};

use semiring::{Algebra, product};

// What a search goes by: the algebra, the number of points, their links, the closed table and the point that the ways end at.
#[derive(Clone, Copy)]
pub struct Search<'a> {
    pub algebra: Algebra,
    pub size: usize,
    pub links: &'a [u16],
    pub closed: &'a [u16],
    pub target: usize,
}

// What the search says of a point: its level, 0 where it has none, and the point that follows it. No Option: the levels that
// `Levels` (ways) speaks of are numbers, and a point has none where its number is 0.
#[derive(Clone, Copy)]
pub struct Mark {
    pub level: usize,
    pub next: usize,
}

impl Search<'_> {
    // Point v, seen from point u of level r.
    fn visit(&self, r: usize, u: usize, v: usize, marks: &mut [Mark])
        requires { Seen self.now r u v marks.old }
        ensures { Visited self.now r u v marks.old marks.new }
    {
        let n = self.size;
        let to = self.target;
        if marks[v].level != 0 {
            return;
        }
        let word = product(self.algebra, self.links[v * n + u], self.closed[u * n + to]);
        if self.closed[v * n + to] != word {
            return;
        }
        marks[v] = Mark {
            level: r + 1,
            next: u,
        };
    }

    // Every point, seen from point u, if its level is r.
    fn join(&self, r: usize, u: usize, marks: &mut [Mark])
        requires { Met self.now r u marks.old }
        ensures { Linked self.now r u marks.old marks.new }
    {
        if marks[u].level != r {
            return;
        }
        for v in 0..self.size {
            self.visit(r, u, v, marks);
        }
    }

    // Every point of level r joined.
    fn next_level(&self, r: usize, marks: &mut [Mark])
        requires searched { Searched self.now r marks.old }
        requires most { r ≤ self.now.size }
        ensures { LevelDone self.now r marks.old marks.new }
    {
        for u in 0..self.size {
            self.join(r, u, marks);
        }
    }

    // Level after level, until the point `from` has one.
    pub fn reach(&self, from: usize, marks: &mut [Mark])
        requires searched { Searched self.now 1 marks.old }
        requires inside { from < self.now.size }
        ensures { Ended self.now from marks.new }
    {
        for r in 1..=self.size {
            if marks[from].level != 0 {
                return;
            }
            self.next_level(r, marks);
        }
    }
}
