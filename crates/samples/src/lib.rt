// The worked samples: scripts with what they are rewritten to, and what their runs answer.
#![tactic(auto)]

ghost use Rattle.samples.specs.Samples.{Samples};

// The worked samples, as one table.
pub fn samples_stand()
    ensures { Samples }
{}
