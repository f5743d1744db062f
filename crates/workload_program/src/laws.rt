//! Laws about the definitions, each the contract of a function that does nothing.

ghost use Rattle.std.specs.Prelude.{◌≡◌, [], ◌∷◌, codes};
ghost use Rattle.clap.specs.declared.error.kind.ErrorKind.TheVariants.{DisplayHelp, DisplayVersion};
ghost use Rattle.workload_program.specs.Command.{faults_of};

/// Four examples of the faults that `clap` finds in words, computed on the definitions: help, the
/// version, help among words of a plan, and a plan, which has no fault.
pub fn worked_words()
    ensures help { faults_of (codes "workload" ∷ codes "--help" ∷ []) ≡ DisplayHelp ∷ [] }
    ensures version { faults_of (codes "workload" ∷ codes "--version" ∷ []) ≡ DisplayVersion ∷ [] }
    ensures help_between { faults_of
        (codes "workload" ∷ codes "points" ∷ codes "--help" ∷ codes "1" ∷ [])
        ≡ DisplayHelp ∷ [] }
    ensures plan { faults_of (codes "workload" ∷ codes "points" ∷ codes "1" ∷ codes "1" ∷ []) ≡ [] }
{}
