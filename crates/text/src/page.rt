// A lent page that is printed on from a position. What has no room is left out.
ghost use Rattle.std.specs.Prelude.{[], ◌∷◌, ◌≡◌};
ghost use Rattle.text.specs.inner.Printed.{Printed};

#[derive(Drop)]
pub struct Page<'a> {
    pub bytes: &'a mut [u8],
    pub at: usize,
}

impl<'a> Page<'a> {
    pub fn new(bytes: &'a mut [u8]) -> Page<'a>
        ensures same_reference { result.bytes.ghost_name ≡ bytes.entry.ghost_name }
        ensures now { result.bytes.now ≡ bytes.old }
        ensures at { result.at ≡ 0 }
    {
        Page { bytes, at: 0 }
    }

    pub fn byte(&mut self, byte: u8)
        ensures { Printed self.old (byte ∷ []) self.new }
    {
        if self.at < self.bytes.len() {
            self.bytes[self.at] = byte;
            self.at += 1;
        }
    }

    pub fn text(&mut self, text: &[u8])
        ensures { Printed self.old text.now self.new }
    {
        let mut page = Page {
            bytes: &mut *self.bytes,
            at: self.at,
        };
        for byte in text {
            page.byte(*byte);
        }
        self.at = page.at;
    }
}
