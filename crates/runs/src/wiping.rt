// Lent memory that is zero at the end.
ghost use Rattle.runs.specs.Zeros.{AllZero};

// The work slab while a call uses it. Its numbers can be what a customer paid for, so it is zero at the end, on every way out.
pub(crate) struct Cleared<'a> {
    pub numbers: &'a mut [i32],
}

impl Drop for Cleared<'_> {
    fn drop(self)
        ensures { AllZero self.exit.0.now }
    {
        self.numbers.fill(0);
        let Cleared { numbers: _ } = self;
    }
}
