// The laws of greatest flows and tensions. Each function does nothing: its contract is the law.

ghost use Rattle.path_cut.specs.FlowLaws.{FlowCutLaw, OpenPathLaw, FlowExactLaw};
ghost use Rattle.path_cut.specs.TensionLaws.{TensionPathLaw, OpenCutLaw, TensionExactLaw};

/// A feasible flow that is the sum of a cut is greatest, over every denominator.
pub fn flow_cut()
    ensures { FlowCutLaw }
{}

/// Where there is a feasible flow, an open path leaves none greatest.
pub fn open_path()
    ensures { OpenPathLaw }
{}

/// At most one flow is greatest, and none where there is no top.
pub fn flow_exact()
    ensures { FlowExactLaw }
{}

/// A feasible tension that is the sum of a path is greatest, over every denominator.
pub fn tension_path()
    ensures { TensionPathLaw }
{}

/// Where there is a feasible potential, an open cut leaves no tension greatest.
pub fn open_cut()
    ensures { OpenCutLaw }
{}

/// At most one tension is greatest, and none where there is no top.
pub fn tension_exact()
    ensures { TensionExactLaw }
{}
