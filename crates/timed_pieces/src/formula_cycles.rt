//! Laws of the formula of a report.
ghost use Rattle.timed_pieces.specs.FormulaCycles.{CostsCountRuns, FormulaCountsRuns, FormulaCountsPieces, LaidOutLoopsLeadToTheirEnds};

/// What the nodes of a flat program cost, point by point, comes to the cycles of its run.
pub fn costs_count_runs()
    ensures { CostsCountRuns }
{}

/// So the formula of the report gives these cycles, and one for the start.
pub fn formula_counts_runs()
    ensures { FormulaCountsRuns }
{}

/// The clocked run of scheduled pieces ends after exactly the cycles that the formula gives for the points that their run passes.
pub fn formula_counts_pieces()
    ensures { FormulaCountsPieces }
{}

/// In a laid out program each loop node leads to the block at the End of its point, and nothing else leads there, where no point has two nodes and each loop of the pieces ends at the End of the point at which its body begins.
pub fn laid_out_loops_lead_to_their_ends()
    ensures { LaidOutLoopsLeadToTheirEnds }
{}
