//! The laws of comparisons.
ghost use Rattle.hls_flow.specs.AgreedComparisons.{AgreedModulesNeverDiffer, TextsHaveOneCircuit, AgreementIsFound};

/// Where the module agrees with the program, in the cycles of the report, the verdict names no difference.
pub fn agreed_modules_never_differ()
    ensures { AgreedModulesNeverDiffer }
{}

/// A text of a module is that of one circuit.
pub fn texts_have_one_circuit()
    ensures { TextsHaveOneCircuit }
{}

/// Where the files agree with the source, and the run ends in time, the verdict is that they agree.
pub fn agreement_is_found()
    ensures { AgreementIsFound }
{}
