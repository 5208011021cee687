// The elimination on bytes, as a host in C lends them: two bytes a word, low byte first. The table lies in an array of this call, the smallest of four
// that holds it, since an array is cleared when it is made. Each of the four functions lays out, closes and encodes itself, and the
// call chooses among them: with one more function in between, the compiler inlined them and every call reserved the largest array.
ghost use Rattle.std.specs.Prelude.{◌≡◌, ◌≤◌, ◌*◌};
ghost use Rattle.closure.specs.Elimination.{eliminated};
ghost use Rattle.byte_tables.specs.Bytes.{decoded, encoded};
ghost use Rattle.refusals.specs.Answer.{answer_number};
ghost use Rattle.paths.specs.EliminatedBytes.{EliminatedBytes};
ghost use Rattle.paths.specs.inner.Room.{Fit};

use byte_tables::{encode, has_word_above, lay_out};
use elimination::close;
use refusals::Reason;
use semiring::Algebra;

// In rows of eight words.
fn in_smallest_room(a: Algebra, size: usize, weights: &[u8], res: &mut [u8])
    requires { Fit size 8 weights.now res.old }
    ensures { res.new ≡ encoded (eliminated a size (decoded weights.now)) }
{
    let mut table = [0u16; 64];
    stride_eight::lay_out(a, size, size, weights, &mut table);
    stride_eight::close(a, size, &mut table);
    stride_eight::encode(size, &table, res);
}

// With room for CELLS words: each instance is a function of its own.
fn in_room<const CELLS: usize>(a: Algebra, size: usize, weights: &[u8], res: &mut [u8])
    requires { Fit size 128 weights.now res.old × (size * size ≤ CELLS) × (CELLS ≤ 16384) }
    ensures { res.new ≡ encoded (eliminated a size (decoded weights.now)) }
{
    let mut table = [0u16; CELLS];
    let cells = size * size;
    let front = &mut table[..cells];
    lay_out(a, size, cells, weights, front);
    close(a, size, front);
    encode(front, res);
}

// The elimination on byte slices. A refusal leaves the result as it was.
pub fn eliminate_bytes(
    algebra: u32,
    size: usize,
    weights: &[u8],
    res: &mut [u8],
) -> Result<(), Reason>
    ensures { EliminatedBytes (answer_number result) algebra size weights.now res.old res.new }
{
    let a = Algebra::try_from(algebra)?;
    if size < 1 || 128 < size {
        return Err(Reason::SizeOutside);
    }
    if weights.len() != 2 * (size * size) {
        return Err(Reason::WeightsLength);
    }
    if res.len() != 2 * (size * size) {
        return Err(Reason::ResultLength);
    }
    if has_word_above(a, weights) {
        return Err(Reason::WordAbove);
    }
    if size <= 8 {
        in_smallest_room(a, size, weights, res);
    } else if size <= 16 {
        in_room::<256>(a, size, weights, res);
    } else if size <= 64 {
        in_room::<4096>(a, size, weights, res);
    } else {
        in_room::<16384>(a, size, weights, res);
    }
    Ok(())
}
