// The table's words as bytes, without the padding.
ghost use Rattle.std.specs.Prelude.{◌≡◌};
ghost use Rattle.closure.specs.Table.{entries, row_by_row};
ghost use Rattle.byte_tables.specs.Bytes.{encoded};
ghost use Rattle.stride_eight.specs.Strided.{ToEncode};

pub fn encode(n: usize, table: &[u16], res: &mut [u8])
    requires { ToEncode n table.now res.old }
    ensures { res.new ≡ encoded (row_by_row n (entries 8 table.now)) }
{
    for i in 0..n {
        let at = i * 8;
        let end = at + n;
        let from = 2 * (i * n);
        let to = from + 2 * n;
        byte_tables::encode(&table[at..end], &mut res[from..to]);
    }
}
