//! Laws of the stages of a source.
ghost use Rattle.stage_runs.specs.Whole.{SourcesHaveWholeStages};

use flat_programs::layout_runs::layout_is_whole;
use source_answers::source_runs::source_types::sources_have_fine_pieces;
use source_validity::source_machines::laws::source_frames_are_named;
use valid_trees::whole_trees::{converted_is_there, lowered_is_there, numbered_is_there};

/// The programs of the stages of a source without faults set variables and take memories that they have.
pub fn sources_have_whole_stages()
    ensures { SourcesHaveWholeStages }
{
    layout_is_whole();
    lowered_is_there();
    numbered_is_there();
    converted_is_there();
    sources_have_fine_pieces();
    source_frames_are_named();
}
