// Both solutions of a property sheet, whatever its kind says: so that the owner of a stored sheet can choose.
#![tactic(auto)]

ghost use Rattle.both_solutions.specs.Promise.{BothPromise};

use chart::AcceptedChart;
use refusal::Refusal;
use sheet::Kind;
use solve::Solved;

// Each with its word, its count and its rounds.
#[derive(Clone, Copy)]
pub struct Solutions {
    pub least: Solved,
    pub greatest: Solved,
}

// The least solution of the sheet's equation, and the greatest. The sheet's kind is read, and not asked.
#[tactic(auto, using(crate::proofs::Promise::by_readers))]
pub fn both_solutions(chart: &[u8], sheet: &[u8]) -> Result<Solutions, Refusal>
    ensures { BothPromise chart.now sheet.now result }
{
    let chart = AcceptedChart::read(chart)?;
    let outline = sheet::read_sheet(sheet, chart.shape.m)?;
    let least = solve::solve_in_room(&chart, sheet, outline.nodes, u8::from(Kind::Least))?;
    let greatest = solve::solve_in_room(&chart, sheet, outline.nodes, u8::from(Kind::Greatest))?;
    Ok(Solutions { least, greatest })
}
