//! Laws of circuits that are driven through their pins.
ghost use Rattle.driven_circuits.specs.Laws.{AgreeingCircuitsShowAnswers, AgreeingCircuitsDoNotDiffer, AgreeingCircuitsNeverDiffer};

/// A circuit that agrees with the box shows the answer of the box to a start, in its result, its elements and its cycles.
pub fn agreeing_circuits_show_answers()
    ensures { AgreeingCircuitsShowAnswers }
{}

/// A circuit that agrees with the box of a C function shows no difference from the end of the function's run.
pub fn agreeing_circuits_do_not_differ()
    ensures { AgreeingCircuitsDoNotDiffer }
{}

/// With however many cycles of waiting, no difference is found between such a circuit and the function.
pub fn agreeing_circuits_never_differ()
    ensures { AgreeingCircuitsNeverDiffer }
{}
