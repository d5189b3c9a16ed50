// Which states satisfy a property sheet: the word, how many they are, and the rounds.
#![tactic(auto)]

ghost use Rattle.property.specs.Promise.{PropertyPromise};

use chart::AcceptedChart;
use refusal::Refusal;
use solve::Solved;

// Which states of the chart satisfy the sheet. The chart's refusal comes before the sheet is read.
#[tactic(auto, using(crate::proofs::Promise::by_readers))]
pub fn property(chart: &[u8], sheet: &[u8]) -> Result<Solved, Refusal>
    ensures { PropertyPromise chart.now sheet.now result }
{
    let chart = AcceptedChart::read(chart)?;
    let outline = sheet::read_sheet(sheet, chart.shape.m)?;
    solve::solve_in_room(&chart, sheet, outline.nodes, u8::from(outline.kind))
}
