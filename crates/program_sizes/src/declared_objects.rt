//! Laws of the objects of elaborated programs.
ghost use Rattle.program_sizes.specs.DeclaredObjects.{ElaboratedObjectsAreDeclared, ParametersAreFew};

/// In the core program of any program each object of a function that is no parameter is declared in its body.
pub fn elaborated_objects_are_declared()
    ensures { ElaboratedObjectsAreDeclared }
{}

/// The functions of a program without faults have at most 32 parameters.
pub fn parameters_are_few()
    ensures { ParametersAreFew }
{}
