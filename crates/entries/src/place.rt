ghost use Rattle.std.specs.Prelude.{◌≡◌, ◌/◌, ◌%◌, ◌<◌};

// A place among the bounds of a zone, by its number: the bound at (i, j) stands at place 9 i + j.
#[derive(Clone, Copy)]
pub struct Place {
    number: usize,
    ghost within: { number < 81 },
}

impl Place {
    pub fn new(number: usize) -> Place
        requires { number < 81 }
        ensures { result.number ≡ number }
    {
        Place { number }
    }

    pub fn row(self) -> usize
        ensures value { result ≡ self.number / 9 }
        ensures within { result < 9 }
    {
        self.number / 9
    }

    pub fn column(self) -> usize
        ensures value { result ≡ self.number % 9 }
        ensures within { result < 9 }
    {
        self.number % 9
    }
}
