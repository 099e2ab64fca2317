ghost use Rattle.std.specs.Prelude.{Some};
ghost use Rattle.plans.specs.Faults.{list_name, fault_told};

use bounds::refusal::Refusal;
use std::error::Error;
use std::fmt;

// What the row check was looking at: the clock count, or one of the four lists.
#[derive(Clone, Copy, PartialEq, Eq, Debug)]
pub enum PlanList {
    Clocks,
    Positions,
    Moves,
    Outcomes,
    Goals,
}

impl fmt::Display for PlanList {
    ghost output = { λ l. Some (list_name l) };

    fn fmt<W: fmt::Write>(&self, f: &mut fmt::Formatter<W>) -> fmt::Result {
        f.write_str(match self {
            PlanList::Clocks => "clocks",
            PlanList::Positions => "positions",
            PlanList::Moves => "moves",
            PlanList::Outcomes => "outcomes",
            PlanList::Goals => "goals",
        })
    }
}

// What the row check refuses: by which refusal, in which list, and at which row, from 1; where there is none, the list as a whole.
#[derive(Clone, Copy, PartialEq, Eq, Debug)]
pub struct RowFault {
    pub refusal: Refusal,
    pub list: PlanList,
    pub row: Option<usize>,
}

impl fmt::Display for RowFault {
    ghost output = { λ f. Some (fault_told f) };

    fn fmt<W: fmt::Write>(&self, f: &mut fmt::Formatter<W>) -> fmt::Result {
        let RowFault { refusal, list, row } = self;
        match row {
            Some(k) => write!(f, "{refusal}: {list}, row {k}"),
            None => write!(f, "{refusal}: {list}"),
        }
    }
}

impl Error for RowFault {}
