#![tactic(auto)]

ghost use Rattle.std.specs.Prelude.{◌≡◌};
ghost use Rattle.texts.specs.Faults.{faulty};
ghost use Rattle.texts.specs.PlanRows.{tables, SameSlices};
ghost use Rattle.texts.specs.Texts.{read_text};
ghost use Rattle.plans.specs.RowLists.{kept, taken};
ghost use Rattle.grammar.specs.Grammar.{KeepsTo, OnePlan};
ghost use Rattle.grammar.specs.Meant.{BoxMeans, ClocksMean};
ghost use Rattle.grammar.specs.Tables.{PassesCheck};

pub mod table;

use texts::fault::TextFault;
use texts::header::Header;
use texts::plan_rows::PlanRows;
use texts::plan_text::read_plan;

// Reads a plan from its text, as `read_plan` does. It is accepted exactly if it writes down a plan that the rows have room for,
// and then the lists hold that plan, and its rows pass the row check. No text writes down two plans.
// A box in it holds exactly the readings that meet all its bounds, and a clock list resets exactly the clocks that it names.
pub fn read_written_plan<'t>(text: &'t [u8], rows: &mut PlanRows) -> Result<Header, TextFault<'t>>
    ensures answer { record { answer = faulty result; rows = tables rows.new } ≡ read_text text.now (tables rows.old) }
    ensures written { KeepsTo text.now (tables rows.old) (faulty result) (tables rows.new) }
    ensures checked { PassesCheck (faulty result) (tables rows.new) }
    ensures one { OnePlan }
    ensures boxes { BoxMeans }
    ensures clocks { ClocksMean }
    ensures same { SameSlices rows.new rows.old }
{
    read_plan(text, rows)
}
