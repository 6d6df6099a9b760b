// The scalars of some bytes, one after the other, each as its bytes. A byte where no scalar stands comes alone.
ghost use Rattle.std.specs.Prelude.{length};
ghost use Rattle.std.specs.Iterator.{at_most};

#[derive(Drop)]
pub(crate) struct Scalars<'a>(pub &'a [u8]);

impl<'a> Iterator for Scalars<'a> {
    type Item = &'a [u8];

    ghost remaining = { λ s. at_most (length s.0.now) };

    fn next(&mut self) -> Option<&'a [u8]> {
        if self.0.is_empty() {
            return None;
        }
        let (scalar, rest) = self.0.split_at_checked(places::after(self.0, 0))?;
        self.0 = rest;
        Some(scalar)
    }
}
