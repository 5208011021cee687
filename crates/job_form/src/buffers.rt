// Words stored in a buffer of any length.
ghost use Rattle.std.specs.Prelude.{◌≡◌, set};

// Puts a word at a place. Past the end it is dropped: a line with so many words is refused. By an index, since after `get_mut` a proof
// knows nothing of the other words.
pub fn store(words: &mut [u16], at: usize, word: u16)
    ensures { words.new ≡ set words.old at word }
{
    if at < words.len() {
        words[at] = word;
    }
}
