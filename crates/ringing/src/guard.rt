// The line bytes of a round, all zero again once the round is over.
ghost use Rattle.std.specs.Prelude.{◌≡◌, length, replicate};

// Holds the line bytes of a round, and writes zeros over them when it is let go.
pub(crate) struct LineGuard<'a> {
    pub bytes: &'a mut [u8],
}

impl Drop for LineGuard<'_> {
    fn drop(self)
        ensures { self.exit.0.now ≡ replicate (length self.entry.bytes.now) 0 }
    {
        let LineGuard { bytes } = self;
        bytes.fill(0);
    }
}
