// The elimination for a host in C: two bytes a word, low byte first.
ghost use Rattle.paths.specs.EliminatedBytes.{EliminatedBytes};

use paths::eliminate_bytes;
use refusals::answer_number;

// It returns 0, or the refusal's number, and then leaves the result as it was.
pub fn paths_eliminate(algebra: u32, size: usize, weights: &[u8], res: &mut [u8]) -> u32
    ensures { EliminatedBytes result algebra size weights.now res.old res.new }
{
    answer_number(eliminate_bytes(algebra, size, weights, res))
}
