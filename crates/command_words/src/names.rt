//! Whether the file names of a command differ. Called by both readers of words.
ghost use Rattle.std.specs.Prelude.{◌≡◌, [], ◌∷◌, map, IfOk};
ghost use Rattle.command_words.specs.Commands as spec;

use crate::word::is_word;
use indexmap::IndexSet;
use std::alloc::{AllocError, Global};

/// Whether no two of these three names are one.
pub fn are_three_different(source: &str, module_file: &str, report: &str) -> bool
    ensures { result ≡ spec.all_differ (source.now ∷ module_file.now ∷ report.now ∷ []) }
{
    !is_word(source, module_file) && !is_word(source, report) && !is_word(module_file, report)
}

/// Whether no two of these four names are one.
pub fn are_four_different(source: &str, module_file: &str, report: &str, run: &str) -> bool
    ensures { result ≡ spec.all_differ (source.now ∷ module_file.now ∷ report.now ∷ run.now ∷ []) }
{
    are_three_different(source, module_file, report)
        && !is_word(source, run)
        && !is_word(module_file, run)
        && !is_word(report, run)
}

/// Whether no two of these names are one, in near linear time.
pub fn are_all_different(alloc: Global, first: &str, others: &[&str]) -> Result<bool, AllocError>
    ensures { IfOk result (λ b. b ≡ spec.all_differ (first.now ∷ map (λ s. s.now) others.now)) }
{
    let mut seen = IndexSet::new(alloc);
    seen.insert(first)?;
    for other in others {
        if !seen.insert(*other)? {
            return Ok(false);
        }
    }
    Ok(true)
}
