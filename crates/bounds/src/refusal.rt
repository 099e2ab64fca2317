ghost use Rattle.std.specs.Prelude.{◌≡◌};
ghost use Rattle.bounds.specs.Refusals.{number};

use std::fmt;

// Why a call is refused. `docs/REFUSALS.md` says when each comes, and in which order.
#[derive(Clone, Copy, PartialEq, Eq, Debug)]
pub enum Refusal {
    Line = 1,
    Order = 2,
    Number = 3,
    Name = 4,
    Chance = 5,
    Rows = 6,
    Clocks = 7,
    State = 8,
    Full = 9,
    Range = 10,
    Phase = 11,
    Entry = 12,
    Buffer = 13,
}

impl Refusal {
    // The number that a refusal is told by, from 1.
    pub fn number(self) -> u8
        ensures { result ≡ number self }
    {
        self as u8
    }
}

impl fmt::Display for Refusal {
    ghost use Rattle.std.specs.Prelude.{Some};
    ghost use Rattle.bounds.specs.Refusals.{told};

    ghost output = { λ r. Some (told r) };

    fn fmt<W: fmt::Write>(&self, f: &mut fmt::Formatter<W>) -> fmt::Result {
        f.write_str(match self {
            Refusal::Line => "refused by Line",
            Refusal::Order => "refused by Order",
            Refusal::Number => "refused by Number",
            Refusal::Name => "refused by Name",
            Refusal::Chance => "refused by Chance",
            Refusal::Rows => "refused by Rows",
            Refusal::Clocks => "refused by Clocks",
            Refusal::State => "refused by State",
            Refusal::Full => "refused by Full",
            Refusal::Range => "refused by Range",
            Refusal::Phase => "refused by Phase",
            Refusal::Entry => "refused by Entry",
            Refusal::Buffer => "refused by Buffer",
        })
    }
}

impl std::error::Error for Refusal {}
