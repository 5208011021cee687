// What has been read of a road file, its table apart.
#[derive(Clone, Copy, Default)]
pub struct Progress {
    // 0 before the `p` line; no Option, since the claim `RoadRefusals` speaks of the points 0
    pub points: usize,
    // ARCS, as the `p` line has it
    pub arcs: u64,
    // `a` lines so far
    pub count: u64,
}
