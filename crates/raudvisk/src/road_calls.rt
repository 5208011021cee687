// Road files for other languages.
ghost use Rattle.std.specs.Prelude.{length};
ghost use Rattle.raudvisk.specs.RoadCalls.{RoadReadHost};

use road_text::read_road;

// It returns 0 and writes POINTS, or returns the refusal's number, and then leaves `points` as it was.
pub fn road_read(file: &[u8], table: &mut [u16], points: &mut usize) -> u32
    ensures { RoadReadHost (length table.old) file.now result points.old points.new table.new }
{
    match read_road(file, table) {
        Ok(n) => {
            *points = n;
            0
        }
        Err(reason) => u32::from(reason),
    }
}
