// Words as bytes, low byte first.
ghost use Rattle.std.specs.Prelude.{◌≡◌, ◌+◌, ◌*◌, length};
ghost use Rattle.byte_tables.specs.Bytes.{decoded, encoded};

// The word of two bytes.
pub fn word(low: u8, high: u8) -> u16
    ensures { result ≡ low + 256 * high }
{
    u16::from_le_bytes([low, high])
}

// The words of the bytes.
pub fn decode(bytes: &[u8], words: &mut [u16])
    requires { length bytes.now ≡ 2 * length words.old }
    ensures { words.new ≡ decoded bytes.now }
{
    for p in 0..words.len() {
        words[p] = word(bytes[2 * p], bytes[2 * p + 1]);
    }
}

// The bytes of the words.
pub fn encode(words: &[u16], bytes: &mut [u8])
    requires { length bytes.old ≡ 2 * length words.now }
    ensures { bytes.new ≡ encoded words.now }
{
    for p in 0..words.len() {
        let word = words[p].to_le_bytes();
        bytes[2 * p] = word[0];
        bytes[2 * p + 1] = word[1];
    }
}
