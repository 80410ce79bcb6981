// The statement on two runs and the laws around it, each on the contract of a function, for whoever reads or uses the definitions.
ghost use Rattle.meaning.specs.Confinement.{Confined, ConfinedFor};
ghost use Rattle.meaning.specs.FlowLaws.{FlowLawsHold};
ghost use Rattle.meaning.specs.RunLaws.{RunLawsHold};
ghost use Rattle.meaning.specs.Structured.{StructuredRuns};
ghost use Rattle.meaning.specs.Tolls.{TollLaws};
ghost use Rattle.meaning.specs.WellFormedness.{RewrittenScripts};

use levels::LevelFamily;

// Rewritten scripts are confined, for every family that keeps the laws.
pub fn confinement_stands()
    ensures { Confined }
{}

// And so for every family that implements the trait.
pub fn confinement_for<F: LevelFamily>(family: &F)
    ensures { ConfinedFor (record { code = F.code family.now; join = F.joined family.now; operator = F.OPERATOR }) }
{}

// A rewritten script is a script again: its lists can be held.
pub fn rewritten_scripts_stand()
    ensures { RewrittenScripts }
{}

// The toll of a rewritten list is the steps that it takes, and both arms of a padded `if` have the same.
pub fn toll_laws()
    ensures { TollLaws }
{}

// What holds of every run: settled standings stay, steps add up, lines stay, values stay values.
pub fn run_laws()
    ensures { RunLawsHold }
{}

// What flows to what is a partial order, and the join is its least upper bound.
pub fn flow_laws()
    ensures { FlowLawsHold }
{}

// A run takes the steps, shows the lines and leaves the registers that the structure of its script says.
pub fn structured_runs_stand()
    ensures { StructuredRuns }
{}
